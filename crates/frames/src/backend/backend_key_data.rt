//! BackendKeyData, by which a client may ask later to cancel: its type and its reader.

ghost use Rattle.std.specs.Prelude.{◌≡◌};
ghost use Rattle.frames.specs.Body.{whole, always};
ghost use Rattle.frames.specs.Plain.{backend_key, backend_key_at};
ghost use Rattle.pqformat.specs.Putting.{Puts};

use crate::fault::FrameFault;
use crate::parts::body::end_of;
use crate::parts::field::int32;
use bytes::BytesMut;
use pqformat::{Cursor, put_int32};
use std::alloc::AllocError;

/// The type byte of BackendKeyData.
pub const BACKEND_KEY_DATA: u8 = b'K';

/// BackendKeyData (PostgreSQL 15, 55.7).
///
/// ```text
/// Byte1('K') | Int32 12, itself counted | Int32 process | Int32 key
/// ```
#[derive(Debug, Drop)]
pub struct BackendKeyData {
    pub process: u32,
    pub key: u32,
}

/// The process and the key; a CancelRequest has the same two.
#[tactic(auto, unfolding(crate::specs::Plain::backend_key_at))]
pub(crate) fn backend_key_of(body: &[u8]) -> Result<(u32, u32), FrameFault>
    ensures { result ≡ whole always (backend_key_at body.now) }
{
    let mut cursor = Cursor::new(body);
    let process = int32(&mut cursor)?;
    let key = int32(&mut cursor)?;
    end_of(&cursor)?;
    Ok((process, key))
}

#[tactic(auto, using(pqformat::proofs::Putting::in_place))]
pub(crate) fn put_backend_key(out: &mut BytesMut, key: &BackendKeyData) -> Result<(), AllocError>
    ensures { Puts result out.old.items out.new.items (backend_key (key.now.process, key.now.key)) }
{
    put_int32(out, key.process)?;
    put_int32(out, key.key)
}
