//! The shortest use of a connection: a client's bytes come in pieces, and the server's answers are printed.
//!
//! `connection TIMES LENGTH PIECE` holds a conversation so many times, with a query text of so many bytes and in pieces of
//! so many, and prints what the server says in it, in hexadecimal digits. With many times it is a measure of speed.

ghost use Rattle.std.specs.Prelude.{◌≤◌};

use crate::talking::scripted_backend::ScriptedBackend;
use crate::uses::{in_pieces, print_bytes};
use anyhow::{Context, Result};
use bytes::BytesMut;
use server::Connection;
use std::alloc::Global;
use std::io::Print;

/// A session of user `u` on database `app` begins.
const STARTUP: &[u8] = b"\0\0\0\x32\0\x03\0\0user\0u\0database\0app\0replication\0database\0\0";

const COMMAND: &[u8] = b"IDENTIFY_SYSTEM";

pub fn hold_conversations<R: Print>(rt: &R, alloc: Global, words: &[String]) -> Result<()> {
    let (times, length, piece) = in_pieces(words, "wants TIMES LENGTH PIECE")?;
    let sent = sent_by_client(alloc, length)?;
    print_last(rt, alloc, times, sent.as_slice(), piece)
}

fn print_last<R: Print>(rt: &R, alloc: Global, times: u32, sent: &[u8], piece: usize) -> Result<()>
    requires { 1 ≤ piece }
{
    let mut said = BytesMut::new(alloc);
    hold_often(alloc, times, sent, piece, &mut said)?;
    print_bytes(rt, alloc, said.as_slice())
}

/// Holds the conversation so many times, and keeps what the server says in the last one.
fn hold_often(
    alloc: Global,
    times: u32,
    sent: &[u8],
    piece: usize,
    said: &mut BytesMut,
) -> Result<()>
    requires { 1 ≤ piece }
{
    for _ in 0..times {
        said.clear();
        hold(alloc, sent, piece, said)?;
    }
    Ok(())
}

/// The startup of a session, and a query with blanks after its command.
fn sent_by_client(alloc: Global, length: usize) -> Result<Vec<u8>> {
    let mut sent = Vec::from_slice(alloc, STARTUP)?;
    put_query(&mut sent, length.max(COMMAND.len()))?;
    Ok(sent)
}

/// The query's frame, whose text has so many bytes.
fn put_query(sent: &mut Vec<u8>, length: usize) -> Result<()> {
    let framed = u32::try_from(length.saturating_add(5)).context("is too long for a frame")?;
    let end = sent.len().saturating_add(5).saturating_add(length);
    sent.push(b'Q')?;
    sent.extend_from_slice(&framed.to_be_bytes())?;
    sent.extend_from_slice(COMMAND)?;
    sent.resize(end, b' ')?;
    Ok(sent.push(0)?)
}

/// Holds a conversation: the connection is given the client's bytes as they come.
fn hold(alloc: Global, sent: &[u8], piece: usize, said: &mut BytesMut) -> Result<()>
    requires { 1 ≤ piece }
{
    let mut backend = ScriptedBackend::new(alloc);
    let mut connection = Connection::new(alloc, 1);
    for bytes in sent.chunks(piece) {
        connection.take(bytes, &mut backend, said)?;
    }
    Ok(())
}
