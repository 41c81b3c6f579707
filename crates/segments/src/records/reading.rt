//! How a record is read from what tells it.

ghost use Rattle.std.specs.Prelude.{◌≡◌, IfOk};
ghost use Rattle.segments.specs.RecordReading.{Answers, Reads, assign_in, body_of, change_in, commit_in, note_in, record_in, xid_in};
ghost use Rattle.segments.specs.Records.{SpellsRecord};

use crate::records::fault::RecordFault;
use crate::records::record_body::RecordBody;
use crate::records::writing::{
    ABORT_SUB_TAG, ABORT_TAG, ASSIGN_TAG, CHANGE_TAG, COMMIT_TAG, NOTE_TAG,
};
use pqformat::Cursor;
use std::alloc::Global;
use tables::{BodyFault, Change, read_body};

/// The record that these bytes tell. `NoRecord` where they tell none, or `Memory`.
pub fn read_record(alloc: Global, bytes: &[u8]) -> Result<RecordBody, RecordFault>
    ensures exact { Reads result (record_in bytes.now) }
    ensures found { IfOk result (λ r. SpellsRecord bytes.now (body_of r)) }
{
    record_of(alloc, bytes)
}

fn record_of(alloc: Global, bytes: &[u8]) -> Result<RecordBody, RecordFault>
    ensures { Reads result (record_in bytes.now) }
{
    let mut cursor = Cursor::new(bytes);
    let tag = cursor.u8().ok_or(RecordFault::NoRecord)?;
    let fields = cursor.rest();
    match tag {
        ASSIGN_TAG => assign_of(fields),
        CHANGE_TAG => change_of(alloc, fields),
        ABORT_SUB_TAG => Ok(RecordBody::AbortSub(xid_of(fields)?)),
        ABORT_TAG => Ok(RecordBody::Abort(xid_of(fields)?)),
        COMMIT_TAG => commit_of(fields),
        NOTE_TAG => note_of(alloc, fields),
        _ => Err(RecordFault::NoRecord),
    }
}

fn assign_of(bytes: &[u8]) -> Result<RecordBody, RecordFault>
    ensures { Reads result (assign_in bytes.now) }
{
    let mut cursor = Cursor::new(bytes);
    let subtransaction = cursor.u32().ok_or(RecordFault::NoRecord)?;
    let parent = xid_of(cursor.rest())?;
    Ok(RecordBody::Assign(subtransaction, parent))
}

fn change_of(alloc: Global, bytes: &[u8]) -> Result<RecordBody, RecordFault>
    ensures { Reads result (change_in bytes.now) }
{
    let mut cursor = Cursor::new(bytes);
    let xid = cursor.u32().ok_or(RecordFault::NoRecord)?;
    match read_body(alloc, cursor.rest()) {
        Ok(change) => Ok(RecordBody::Change(xid, change)),
        Err(BodyFault::Memory) => Err(RecordFault::Memory),
        Err(_) => Err(RecordFault::NoRecord),
    }
}

fn commit_of(bytes: &[u8]) -> Result<RecordBody, RecordFault>
    ensures { Reads result (commit_in bytes.now) }
{
    let mut cursor = Cursor::new(bytes);
    let xid = cursor.u32().ok_or(RecordFault::NoRecord)?;
    let time = cursor.u64().ok_or(RecordFault::NoRecord)?;
    if !cursor.rest().is_empty() {
        return Err(RecordFault::NoRecord);
    }
    Ok(RecordBody::Commit(xid, time.cast_signed()))
}

fn note_of(alloc: Global, bytes: &[u8]) -> Result<RecordBody, RecordFault>
    ensures { Reads result (note_in bytes.now) }
{
    match read_body(alloc, bytes) {
        Ok(Change::Message(message)) => Ok(RecordBody::Note(message)),
        Err(BodyFault::Memory) => Err(RecordFault::Memory),
        _ => Err(RecordFault::NoRecord),
    }
}

/// An xid, and nothing else.
fn xid_of(bytes: &[u8]) -> Result<u32, RecordFault>
    ensures { Answers (λ xid. xid) result (xid_in bytes.now) }
{
    let mut cursor = Cursor::new(bytes);
    let xid = cursor.u32().ok_or(RecordFault::NoRecord)?;
    if !cursor.rest().is_empty() {
        return Err(RecordFault::NoRecord);
    }
    Ok(xid)
}
