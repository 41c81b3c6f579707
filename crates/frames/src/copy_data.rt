//! CopyData, a piece of the stream in copy mode, as both sides send it: its type, its reader and its writer.

ghost use Rattle.std.specs.Prelude.{◌≡◌, length};
ghost use Rattle.frames.specs.Frame.{Gives};
ghost use Rattle.pqformat.specs.Putting.{Puts};
ghost use Rattle.frames.specs.Body.{whole, always};
ghost use Rattle.frames.specs.CopyData.{copy_data, copy_data_at};

use crate::fault::FrameFault;
use bytes::BytesMut;
use pqformat::{Items, put_bytes};
use std::alloc::{AllocError, Global};

/// The type byte of CopyData.
pub const COPY_DATA: u8 = b'd';

/// CopyData (PostgreSQL 15, 55.7).
///
/// ```text
/// Byte1('d') | Int32 length, itself counted | Byten data
/// ```
///
/// What the data mean is told by the replication protocol, not by the frame.
#[derive(Debug, Drop)]
pub struct CopyData {
    pub bytes: Items<u8>,
}

pub(crate) fn copy_data_of(alloc: Global, body: &[u8]) -> Result<CopyData, FrameFault>
    ensures { Gives result (whole always (copy_data_at body.now)) }
{
    let bytes = Vec::from_slice(alloc, body)?;
    Ok(CopyData {
        bytes: Items::new(bytes),
    })
}

pub(crate) fn copy_data_len(message: &CopyData) -> usize
    ensures { result ≡ length (copy_data message.now) }
{
    message.bytes.len()
}

pub(crate) fn put_copy_data(out: &mut BytesMut, message: &CopyData) -> Result<(), AllocError>
    ensures { Puts result out.old.items out.new.items (copy_data message.now) }
{
    put_bytes(out, message.bytes.as_slice())
}
