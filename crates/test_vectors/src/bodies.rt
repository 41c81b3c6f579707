//! Logical messages, bodies inside CopyData and bodies of changes: what is read of all bytes is written again.

ghost use Rattle.std.specs.Prelude.{◌≡◌, true, IfOk};
ghost use Rattle.pgoutput.specs.Logical.{FitsLogical, IsShort};
ghost use Rattle.tables.specs.Spelling.{IsShort as IsShortBody};

use crate::wording::answer::{tell, tell_written};
use anyhow::{Result, ensure};
use bytes::BytesMut;
use copyboth::{
    ServerBody, Status, read_client, read_server, write_keepalive, write_status, write_xlogdata,
};
use pgoutput::{Logical, PgoutputError, read_logical, write_logical, written_and_read};
use std::alloc::{AllocError, Global};
use tables::{
    BodyFault, Change, MAX_CONTENT_LENGTH, MAX_PREFIX_LENGTH, MAX_TRUNCATED, body_len, read_body,
    write_body,
};

pub fn answer_logical(alloc: Global, bytes: &[u8], answer: &mut String) -> Result<()> {
    let came = read_logical(alloc, bytes);
    add_logical(alloc, &came, bytes, answer)
}

fn add_logical(
    alloc: Global,
    came: &Result<Logical, PgoutputError>,
    read: &[u8],
    answer: &mut String,
) -> Result<()>
    requires { IfOk came.now (λ message. FitsLogical message × IsShort message) }
{
    tell(answer, came)?;
    match came {
        Ok(message) => tell_logical(alloc, message, read, answer),
        Err(_) => Ok(()),
    }
}

fn tell_logical(alloc: Global, message: &Logical, read: &[u8], answer: &mut String) -> Result<()>
    requires range { FitsLogical message.now }
    requires short { IsShort message.now }
{
    tell_written_logical(alloc, message, read, answer)?;
    see_again(alloc, message)
}

fn see_again(alloc: Global, message: &Logical) -> Result<()>
    requires range { FitsLogical message.now }
    requires short { IsShort message.now }
{
    let again = written_and_read(alloc, message)?;
    let is_same = again == *message;
    drop(again);
    ensure!(is_same, "is another message when it is read again");
    Ok(())
}

fn tell_written_logical(
    alloc: Global,
    message: &Logical,
    read: &[u8],
    answer: &mut String,
) -> Result<(), AllocError>
    requires { IsShort message.now }
{
    let mut written = BytesMut::new(alloc);
    write_logical(message, &mut written)?;
    tell_written(answer, written.as_slice(), read)
}

pub fn answer_server(alloc: Global, bytes: &[u8], answer: &mut String) -> Result<()> {
    let came = read_server(bytes);
    tell(answer, &came)?;
    match came {
        Ok(body) => Ok(tell_server(alloc, &body, bytes, answer)?),
        Err(_) => Ok(()),
    }
}

fn tell_server(
    alloc: Global,
    body: &ServerBody<'_>,
    read: &[u8],
    answer: &mut String,
) -> Result<(), AllocError> {
    let mut written = BytesMut::new(alloc);
    write_server(body, &mut written)?;
    tell_written(answer, written.as_slice(), read)
}

fn write_server(body: &ServerBody<'_>, written: &mut BytesMut) -> Result<(), AllocError> {
    match body {
        ServerBody::XLogData(data) => {
            write_xlogdata(data.start, data.end, data.clock, data.payload, written)
        }
        ServerBody::Keepalive(body) => write_keepalive(body.end, body.clock, body.ask, written),
    }
}

pub fn answer_client(alloc: Global, bytes: &[u8], answer: &mut String) -> Result<()> {
    let came = read_client(bytes);
    tell(answer, &came)?;
    match came {
        Ok(status) => Ok(tell_client(alloc, &status, bytes, answer)?),
        Err(_) => Ok(()),
    }
}

fn tell_client(
    alloc: Global,
    status: &Status,
    read: &[u8],
    answer: &mut String,
) -> Result<(), AllocError> {
    let mut written = BytesMut::new(alloc);
    write_status(status, &mut written)?;
    tell_written(answer, written.as_slice(), read)
}

/// A change is written again where it is short enough.
pub fn answer_body(alloc: Global, bytes: &[u8], answer: &mut String) -> Result<()> {
    let came = read_body(alloc, bytes);
    add_body(alloc, &came, bytes, answer)
}

fn add_body(
    alloc: Global,
    came: &Result<Change, BodyFault>,
    read: &[u8],
    answer: &mut String,
) -> Result<()> {
    tell(answer, came)?;
    match came {
        Ok(change) if is_short(change) => tell_body(alloc, change, read, answer),
        _ => Ok(()),
    }
}

fn tell_body(alloc: Global, change: &Change, read: &[u8], answer: &mut String) -> Result<()>
    requires { IsShortBody change.now }
{
    let length = tell_written_body(alloc, change, read, answer)?;
    ensure!(body_len(change) == length, "has another length");
    Ok(())
}

/// Answers how long it is as it is written.
fn tell_written_body(
    alloc: Global,
    change: &Change,
    read: &[u8],
    answer: &mut String,
) -> Result<usize, AllocError>
    requires { IsShortBody change.now }
{
    let mut written = BytesMut::new(alloc);
    write_body(change, &mut written)?;
    tell_written(answer, written.as_slice(), read)?;
    Ok(written.len())
}

fn is_short(change: &Change) -> bool
    ensures { result ≡ true → IsShortBody change.now }
{
    match change {
        Change::Insert(_, row) => row.coded_len().is_some(),
        Change::Update(_, old, row) => old.coded_len().is_some() && row.coded_len().is_some(),
        Change::Delete(_, old) => old.coded_len().is_some(),
        Change::Truncate(oids) => oids.len() <= MAX_TRUNCATED,
        Change::Message(message) => {
            message.prefix.as_str().len() <= MAX_PREFIX_LENGTH
                && message.content.len() <= MAX_CONTENT_LENGTH
        }
    }
}
