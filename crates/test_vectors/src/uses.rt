//! Short uses of the crates, each in a file of its own, to read and to time. `stream`, `connection` and `subscriber` are first steps.
//! What the others print is small, so that many turns of them measure their speed, or nothing.

ghost use Rattle.std.specs.Prelude.{◌≤◌, IfOk};

mod chunks;
mod claims;
mod connection;
mod endless;
mod filters;
mod items;
mod own_log;
mod recovering;
mod sending;
mod subscriber;
mod without_memory;

use crate::answer_calls;
use anyhow::{Context, Error, Result, ensure};
use chunks::work_on_arena;
use claims::work_on_slots;
use connection::hold_conversations;
use endless::commit_on_and_on;
use filters::work_on_filters;
use recovering::recover;
use sending::print_stream;
use std::alloc::Global;
use std::io::{Input, Print};
use std::net::{Net, TcpListener, TcpStream};
use std::random::RandomSource;
use std::sync::Wait;
use std::thread::Threads;
use std::time::Clock;
use subscriber::follow_stream;
use without_memory::call_without_memory;

const USAGE: &str = "usage: test_vectors [USE [then USE]..], where a USE is one of
  calls
  stream
  connection TIMES LENGTH PIECE
  subscriber TIMES INSERTS PIECE
  filter TURNS filter|hand
  slots slots|words|apart THREADS TURNS
  arena CHUNKS LENGTH TURNS push|copy
  endless MILLIONS
  recovered LINES..
  without-memory arena|store|slots|log|wire|filter|message made|called";

pub fn use_one<R>(rt: &R, alloc: Global, words: &[String]) -> Result<()>
where
    R: Net<Listener = TcpListener, Stream = TcpStream>
        + Threads
        + Wait
        + Clock
        + RandomSource
        + Input
        + Print
        + Sync,
{
    let [name, words @ ..] = words else {
        return Err(Error::msg(USAGE));
    };
    match name.as_str() {
        "calls" => answer_calls(rt, alloc),
        "stream" => print_stream(rt, alloc),
        "connection" => hold_conversations(rt, alloc, words),
        "subscriber" => follow_stream(rt, alloc, words),
        "filter" => work_on_filters(rt, alloc, words),
        "slots" => work_on_slots(rt, alloc, words),
        "arena" => work_on_arena(alloc, words),
        "endless" => commit_on_and_on(rt, alloc, words),
        "recovered" => recover(rt, alloc, words),
        "without-memory" => call_without_memory(rt, alloc, words),
        _ => Err(Error::msg(USAGE)),
    }
}

fn number(word: &String) -> Result<u32> {
    word.as_str()
        .parse::<u32>()
        .context("a word that has to be a number is none")
}

/// TIMES, another number and PIECE, of a use that wants these words.
fn in_pieces(words: &[String], wanted: &'static str) -> Result<(u32, usize, usize)>
    ensures { IfOk result (λ given. 1 ≤ given.2) }
{
    let [times, length, piece] = words else {
        return Err(Error::msg(wanted));
    };
    let times = number(times)?;
    let piece = number(piece)? as usize;
    ensure!(1 <= piece, "a piece has a byte at least");
    Ok((times, number(length)? as usize, piece))
}

/// Prints the bytes in hexadecimal digits.
fn print_bytes<R: Print>(rt: &R, alloc: Global, bytes: &[u8]) -> Result<()> {
    let text = hex::encode(alloc, bytes)?;
    println!(rt; "{text}")?;
    Ok(())
}
