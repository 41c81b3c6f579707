//! How a record is told: a tag and its fields.

ghost use Rattle.std.specs.Prelude.{◌≡◌, ◌∷◌, ◌++◌, OnOk};
ghost use Rattle.pqformat.specs.Fields.{int32};
ghost use Rattle.segments.specs.Records.{IsTold, spell_record};

use bytes::BytesMut;
use pqformat::{put_byte, put_bytes, put_int32, put_int64};
use std::alloc::AllocError;
use wal::Body;

/// The first byte of what tells a record, by its kind.
pub const ASSIGN_TAG: u8 = 1;

pub const CHANGE_TAG: u8 = 2;

pub const ABORT_SUB_TAG: u8 = 3;

pub const ABORT_TAG: u8 = 4;

pub const COMMIT_TAG: u8 = 5;

pub const NOTE_TAG: u8 = 6;

/// Adds what tells a record: the body of its entry. `AllocError` where memory is refused; some of it may have been added then.
pub fn put_record(body: &Body, out: &mut BytesMut) -> Result<(), AllocError>
    ensures spelled { OnOk result (out.new.items ≡ out.old.items ++ spell_record body.now) }
    ensures told { OnOk result (IsTold body.now) }
{
    match body {
        Body::Assign(subtransaction, parent) => {
            put_byte(out, ASSIGN_TAG)?;
            put_int32(out, *subtransaction)?;
            put_int32(out, *parent)
        }
        Body::Change(xid, change) => {
            put_byte(out, CHANGE_TAG)?;
            put_int32(out, *xid)?;
            put_bytes(out, change.body())
        }
        Body::AbortSub(xid) => put_xid(ABORT_SUB_TAG, *xid, out),
        Body::Abort(xid) => put_xid(ABORT_TAG, *xid, out),
        Body::Commit(xid, time) => {
            put_xid(COMMIT_TAG, *xid, out)?;
            put_int64(out, time.cast_unsigned())
        }
        Body::Note(message) => {
            put_byte(out, NOTE_TAG)?;
            put_bytes(out, message.body())
        }
    }
}

fn put_xid(tag: u8, xid: u32, out: &mut BytesMut) -> Result<(), AllocError>
    ensures { OnOk result (out.new.items ≡ out.old.items ++ tag ∷ int32 xid) }
{
    put_byte(out, tag)?;
    put_int32(out, xid)
}
