//! An entry of a segment: the length of its payload, the payload's digest, and the payload: up to where the segment was on the disk when
//! the entry was written, and a body.

ghost use Rattle.std.specs.Prelude.{◌≡◌, ◌<◌, ◌+◌, ◌^◌, ◌++◌, length, OnOk};
ghost use Rattle.segments.specs.Entries.{Fits, entry, entry_at};
ghost use Rattle.segments.specs.Found.{lent_entry};

use bytes::BytesMut;
use pqformat::{Cursor, put_bytes, put_int32, put_int64};
use sqlite_disk::digest_of;
use std::alloc::AllocError;
use std::marker::Model;

/// An entry that was found.
#[derive(Drop)]
pub struct Entry {
    /// Up to where its segment was on the disk when it was written.
    pub synced: u64,
    pub body: Vec<u8>,
}

impl Model for Entry {
    ghost use Rattle.segments.specs.Entries.{Written};

    ghost Value = { Written };

    ghost view = { λ e. record { synced = e.synced; body = e.body.items } };
}

/// An entry where it stands.
#[derive(Drop)]
pub(crate) struct EntryRef<'a> {
    pub synced: u64,
    pub body: &'a [u8],
    /// What follows it.
    pub rest: &'a [u8],
}

/// Adds an entry. `payload` is room for what its digest is taken of.
pub(crate) fn put_entry(
    key: u64,
    synced: u64,
    body: &[u8],
    payload: &mut BytesMut,
    out: &mut BytesMut,
) -> Result<(), AllocError>
    requires { 8 + length body.now < 2 ^ 32 }
    ensures spelled { OnOk result
        (out.new.items
        ≡ out.old.items ++ entry key (record { synced = synced; body = body.now })) }
    ensures fits { OnOk result (Fits key (record { synced = synced; body = body.now })) }
{
    payload.clear();
    put_int64(payload, synced)?;
    put_bytes(payload, body)?;
    put_int32(out, payload.len() as u32)?;
    put_int64(out, digest_of(key, payload.as_slice()))?;
    put_bytes(out, payload.as_slice())
}

/// The entry at the front; None where none stands there whole.
pub(crate) fn entry_at<'a>(key: u64, bytes: &'a [u8]) -> Option<EntryRef<'a>>
    ensures { lent_entry result ≡ entry_at key bytes.now }
{
    let mut cursor = Cursor::new(bytes);
    let length = cursor.u32()?;
    let wanted = cursor.u64()?;
    let payload = cursor.take(length as usize)?;
    if digest_of(key, payload) != wanted {
        return None;
    }
    let mut fields = Cursor::new(payload);
    let synced = fields.u64()?;
    Some(EntryRef {
        synced,
        body: fields.rest(),
        rest: cursor.rest(),
    })
}
