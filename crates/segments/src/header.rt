//! What a segment begins with: what it is, the version of its format, the key of its digests, and the digest of these.

ghost use Rattle.std.specs.Prelude.{◌≡◌, ◌≢◌, ◌≤◌, ◌++◌, ℕ, Err, OnOk, IfOk, length, take};
ghost use Rattle.segments.specs.Entries.{header, signature};

use crate::fault::SegmentFault;
use bytes::BytesMut;
use pqformat::{Cursor, put_bytes, put_int32, put_int64};
use sqlite_disk::digest_of;
use std::alloc::AllocError;

/// The first eight bytes of a segment, as a number.
const MAGIC: u64 = 0x566f_6e64_6168_650a;

/// The version of the format.
const VERSION: u32 = 1;

/// How many bytes of a header stand before its digest.
const SIGNATURE_LENGTH: usize = 20;

/// How many bytes stand before the first entry.
pub const HEADER_LENGTH: usize = 28;

/// Adds a header. `front` is room for what its digest is taken of.
pub(crate) fn put_header(
    key: u64,
    front: &mut BytesMut,
    out: &mut BytesMut,
) -> Result<(), AllocError>
    ensures { OnOk result (out.new.items ≡ out.old.items ++ header key) }
{
    front.clear();
    put_int64(front, MAGIC)?;
    put_int32(front, VERSION)?;
    put_int64(front, key)?;
    put_bytes(out, front.as_slice())?;
    put_int64(out, digest_of(key, front.as_slice()))
}

/// The key that a header tells: `NoSegment` where there is none, or it is damaged, `Version` where it is of another version.
pub(crate) fn key_of(bytes: &[u8]) -> Result<u64, SegmentFault>
    ensures key { IfOk result (λ key. take HEADER_LENGTH bytes.now ≡ header key) }
    ensures long { OnOk result (HEADER_LENGTH ≤ length bytes.now) }
    ensures sound { (at : ℕ) → result ≢ Err (SegmentFault.Damaged at) }
{
    let mut cursor = Cursor::new(bytes);
    let Some(front) = cursor.take(SIGNATURE_LENGTH) else {
        return Err(SegmentFault::NoSegment);
    };
    let Some(wanted) = cursor.u64() else {
        return Err(SegmentFault::NoSegment);
    };
    let key = signed_key(front)?;
    if digest_of(key, front) != wanted {
        return Err(SegmentFault::NoSegment);
    }
    Ok(key)
}

/// The key of a header's front.
fn signed_key(front: &[u8]) -> Result<u64, SegmentFault>
    ensures key { IfOk result (λ key. take SIGNATURE_LENGTH front.now ≡ signature key) }
    ensures sound { (at : ℕ) → result ≢ Err (SegmentFault.Damaged at) }
{
    let mut cursor = Cursor::new(front);
    match cursor.u64() {
        Some(MAGIC) => {}
        _ => return Err(SegmentFault::NoSegment),
    }
    match cursor.u32() {
        Some(VERSION) => {}
        Some(_) => return Err(SegmentFault::Version),
        None => return Err(SegmentFault::NoSegment),
    }
    match cursor.u64() {
        Some(key) => Ok(key),
        None => Err(SegmentFault::NoSegment),
    }
}
