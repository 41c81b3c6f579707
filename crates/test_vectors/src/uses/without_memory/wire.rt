//! What stands between bytes and values: a cursor, the bodies of copy-both messages, and a subscriber's status.

use crate::uses::without_memory::answered;
use anyhow::Result;
use client::Applier;
use copyboth::{ServerBody, read_client, read_server};
use pqformat::Cursor;
use std::alloc::Global;

/// The body of a keepalive at 0/1000000, under clock 9, that doesn't ask.
const KEEPALIVE: &[u8] = b"k\0\0\0\0\x01\0\0\0\0\0\0\0\0\0\0\x09\0";

/// The bytes of a CopyData before its body.
const HEAD: usize = 5;

pub fn work(alloc: Global, is_called: bool) -> Result<()> {
    let applier = Applier::new(alloc);
    let is_right = !is_called || is_walked() && is_read() && is_told(&applier);
    answered(is_right, "calls on bytes answer otherwise")
}

fn is_walked() -> bool {
    let mut cursor = Cursor::new(b"\x01\0\x02\0\0\0\x03\0\0\0\0\0\0\0\x04name\0rest");
    let numbers = (cursor.u8(), cursor.u16(), cursor.u32(), cursor.u64());
    let name = cursor.cstr();
    let taken = cursor.take(2);
    numbers == (Some(1), Some(2), Some(3), Some(4))
        && name == Some(b"name".as_slice())
        && taken == Some(b"re".as_slice())
        && cursor.rest() == b"st".as_slice()
}

fn is_read() -> bool {
    match read_server(KEEPALIVE) {
        Ok(ServerBody::Keepalive(keepalive)) => keepalive.end == 0x100_0000 && !keepalive.ask,
        Ok(ServerBody::XLogData(_)) | Err(_) => false,
    }
}

fn is_told(applier: &Applier) -> bool {
    let frame = applier.status(9, true);
    match read_client(&frame[HEAD..]) {
        Ok(status) => status.flushed == applier.position() && status.clock == 9 && status.ask,
        Err(_) => false,
    }
}
