//! How a change is written into the log: the lengths and bytes of its body.
#![tactic(auto, using(pqformat::proofs::Putting::extends_itself, pqformat::proofs::Putting::extends_more, pqformat::proofs::Putting::extends_back))]

ghost use Rattle.std.specs.Prelude.{◌≡◌, ◌+◌, ◌*◌, ◌++◌, ◌∷◌, ◌<◌, ◌≤◌, ◌^◌, OnErr, OnOk, length};
ghost use Rattle.std.specs.List.{flat_map};
ghost use Rattle.pqformat.specs.Fields.{int16, int32};
ghost use Rattle.pqformat.specs.Putting.{Puts};
ghost use Rattle.tables.specs.Spelling.{IsShort, IsShortMessage, body_length, row_length, spell_body, spell_message, spell_oids, spell_one};
ghost use Rattle.tables.specs.declared.rows.row.TheConstants.{MAX_ROW_LENGTH};

use crate::changes::change::Change;
use crate::changes::message::Message;
use crate::rows::row::Row;
use crate::rows::row_body::put_row;
use bytes::{BufMut, BytesMut};
use pqformat::{put_int16, put_int32};
use std::alloc::AllocError;

/// The longest body of a change in bytes: that of an update, with two rows.
pub const MAX_BODY_LENGTH: usize = 16_005;

/// The first byte of a change's body, by its kind.
pub const INSERT_TAG: u8 = 1;

pub const UPDATE_TAG: u8 = 2;

pub const DELETE_TAG: u8 = 3;

pub const TRUNCATE_TAG: u8 = 4;

pub const MESSAGE_TAG: u8 = 5;

/// The most tables that a truncate names.
pub const MAX_TRUNCATED: usize = 256;

/// The length of the change's body in bytes.
#[tactic(auto, using(crate::proofs::Lengths::message_length, crate::proofs::Lengths::truncate_length, crate::proofs::Lengths::insert_length, crate::proofs::Lengths::delete_length, crate::proofs::Lengths::two_rows_length))]
pub fn body_len(change: &Change) -> usize
    requires { IsShort change.now }
    ensures value { result ≡ body_length change.now }
    ensures bounded { result ≤ MAX_BODY_LENGTH }
{
    match change {
        Change::Insert(_, row) => 5 + short_len(row),
        Change::Update(_, old, row) => 5 + short_len(old) + short_len(row),
        Change::Delete(_, old) => 5 + short_len(old),
        Change::Truncate(oids) => 3 + 4 * oids.len(),
        Change::Message(message) => 7 + message.prefix.as_str().len() + message.content.len(),
    }
}

fn short_len(row: &Row) -> usize
    requires { row_length row.now ≤ MAX_ROW_LENGTH }
    ensures value { result ≡ row_length row.now }
    ensures bounded { result ≤ MAX_ROW_LENGTH }
{
    match row.coded_len() {
        Some(len) => len,
        None => unreachable!(),
    }
}

/// Adds the change's body. `AllocError` where memory is refused; nothing is added then.
pub fn write_body(change: &Change, out: &mut BytesMut) -> Result<(), AllocError>
    requires { IsShort change.now }
    ensures ok { OnOk result (out.new.items ≡ out.old.items ++ spell_body change.now) }
    ensures err { OnErr result (out.new.items ≡ out.old.items) }
{
    let start = out.len();
    let written = put_change(change, out);
    if written.is_err() {
        out.truncate(start);
    }
    written
}

fn put_change(change: &Change, out: &mut BytesMut) -> Result<(), AllocError>
    requires { IsShort change.now }
    ensures { Puts result out.old.items out.new.items (spell_body change.now) }
{
    match change {
        Change::Insert(oid, row) => put_one_row(INSERT_TAG, *oid, row, out),
        Change::Update(oid, old, row) => {
            put_one_row(UPDATE_TAG, *oid, old, out)?;
            put_row(row, out)
        }
        Change::Delete(oid, old) => put_one_row(DELETE_TAG, *oid, old, out),
        Change::Truncate(oids) => put_oids(oids.as_slice(), out),
        Change::Message(message) => put_message(message, out),
    }
}

fn put_one_row(tag: u8, oid: u32, row: &Row, out: &mut BytesMut) -> Result<(), AllocError>
    requires { row_length row.now ≤ MAX_ROW_LENGTH }
    ensures { Puts result out.old.items out.new.items (spell_one tag oid row.now) }
{
    out.put_u8(tag)?;
    put_int32(out, oid)?;
    put_row(row, out)
}

fn put_oids(oids: &[u32], out: &mut BytesMut) -> Result<(), AllocError>
    requires { length oids.now ≤ MAX_TRUNCATED }
    ensures { Puts result out.old.items out.new.items (TRUNCATE_TAG ∷ spell_oids oids.now) }
{
    out.put_u8(TRUNCATE_TAG)?;
    put_int16(out, oids.len() as u16)?;
    for oid in oids {
        put_int32(out, *oid)?;
    }
    Ok(())
}

fn put_message(message: &Message, out: &mut BytesMut) -> Result<(), AllocError>
    requires { IsShortMessage message.now }
    ensures { Puts result out.old.items out.new.items (MESSAGE_TAG ∷ spell_message message.now) }
{
    let prefix = message.prefix.as_str().as_bytes();
    let content = message.content.as_slice();
    out.put_u8(MESSAGE_TAG)?;
    put_int16(out, prefix.len() as u16)?;
    out.put_slice(prefix)?;
    put_int32(out, content.len() as u32)?;
    out.put_slice(content)
}
