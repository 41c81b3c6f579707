//! The shortest use of a subscriber: a stream comes in pieces, and what the subscriber made of it is printed.
//!
//! `subscriber TIMES INSERTS PIECE` takes a stream of one transaction with so many inserts, sent so many times over one
//! connection, in pieces of so many bytes. It prints the subscriber's position, how many transactions it has applied with how
//! many changes in all, and the frame that tells the server so, in hexadecimal digits. The transaction is applied once, however
//! often it comes. With many inserts it is a measure of speed, and with many times of memory.

ghost use Rattle.std.specs.Prelude.{◌≤◌};

use crate::uses::{in_pieces, print_bytes};
use anyhow::Result;
use client::Applier;
use std::alloc::Global;
use std::io::Print;

/// Begin of the transaction that commits at 0/1000030, at 0/1000030 and under clock 9.
const BEGIN: &str =
    "6400000032770000000001000030000000000100003000000000000000094200000000010000300000000000000005000002bc";

/// The Relation of the table public.item: id int4, the key; name text; qty int8.
const RELATION: &str =
    "64000000587700000000010000000000000001000000000000000000000952000040007075626c6963006974656d006400030169640000000017ffffffff006e616d650000000019ffffffff007174790000000014ffffffff";

/// An Insert of (1,'ab',7).
const INSERT: &str =
    "64000000387700000000010000000000000001000000000000000000000949000040004e000374000000013174000000026162740000000137";

/// Commit of the transaction, which ends at 0/1000050.
const COMMIT: &str =
    "6400000037770000000001000050000000000100005000000000000000094300000000000100003000000000010000500000000000000005";

pub fn follow_stream<R: Print>(rt: &R, alloc: Global, words: &[String]) -> Result<()> {
    let (times, inserts, piece) = in_pieces(words, "wants TIMES INSERTS PIECE")?;
    let mut stream = Vec::new(alloc);
    put_stream(alloc, inserts, &mut stream)?;
    apply(rt, alloc, times, stream.as_slice(), piece)
}

fn apply<R: Print>(rt: &R, alloc: Global, times: u32, stream: &[u8], piece: usize) -> Result<()>
    requires { 1 ≤ piece }
{
    let mut applier = Applier::new(alloc);
    take_often(&mut applier, times, stream, piece)?;
    print(rt, alloc, &applier)
}

fn take_often(applier: &mut Applier, times: u32, stream: &[u8], piece: usize) -> Result<()>
    requires { 1 ≤ piece }
{
    for _ in 0..times {
        take(applier, stream, piece)?;
    }
    Ok(())
}

/// One transaction of so many inserts.
fn put_stream(alloc: Global, inserts: usize, stream: &mut Vec<u8>) -> Result<()> {
    put(alloc, BEGIN, 1, stream)?;
    put(alloc, RELATION, 1, stream)?;
    put(alloc, INSERT, inserts, stream)?;
    put(alloc, COMMIT, 1, stream)
}

/// The bytes of these digits so many times.
fn put(alloc: Global, digits: &str, times: usize, stream: &mut Vec<u8>) -> Result<()> {
    let bytes = hex::decode(alloc, digits)?;
    for _ in 0..times {
        stream.extend_from_slice(bytes.as_slice())?;
    }
    Ok(())
}

/// The applier is given the stream as it comes.
fn take(applier: &mut Applier, stream: &[u8], piece: usize) -> Result<()>
    requires { 1 ≤ piece }
{
    for bytes in stream.chunks(piece) {
        applier.take(bytes)?;
    }
    Ok(())
}

fn print<R: Print>(rt: &R, alloc: Global, applier: &Applier) -> Result<()> {
    let position = applier.position();
    let upper = position >> 32;
    let lower = position & 0xffff_ffff;
    let mut changes = 0_usize;
    for applied in applier.applied() {
        changes = changes.saturating_add(applied.changes.len());
    }
    let transactions = applier.applied().len();
    println!(rt; "{upper:X}/{lower:X} {transactions} {changes}")?;
    print_bytes(rt, alloc, &applier.status(9, false))
}
