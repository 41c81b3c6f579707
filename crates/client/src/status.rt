//! The frame of a standby status update, made without memory.

ghost use Rattle.std.specs.Prelude.{◌≡◌, ◌+◌, ◌≤◌, ◌++◌, length, take};
ghost use Rattle.pqformat.specs.Fields.{int64};
ghost use Rattle.frames.specs.Frame.{frame};
ghost use Rattle.frames.specs.declared.copy_data.TheConstants.{COPY_DATA};
ghost use Rattle.copyboth.specs.Status.{status};
ghost use Rattle.copyboth.specs.Keepalive.{ask_byte};

use copyboth::{ASKS, SILENT, STATUS};
use frames::COPY_DATA;

/// The length field of the frame, and the bytes that it takes with its type byte.
const LENGTH: u8 = 38;

const SIZE: usize = 39;

/// A CopyData with a status of one position in its three fields.
pub(crate) fn status_frame(position: u64, clock: i64, ask: bool) -> [u8; 39]
    ensures { result ≡ frame COPY_DATA (status (record {
      written = position;
      flushed = position;
      applied = position;
      clock = clock;
      ask = ask;
    })) }
{
    let mut out = [0; SIZE];
    out[0] = COPY_DATA;
    out[4] = LENGTH;
    out[5] = STATUS;
    put_number(&mut out, 6, position);
    put_number(&mut out, 14, position);
    put_number(&mut out, 22, position);
    put_number(&mut out, 30, clock.cast_unsigned());
    out[38] = ask_of(ask);
    out
}

/// Writes a number at a place.
#[tactic(auto, unfolding(pqformat::specs::Fields::int64))]
fn put_number(out: &mut [u8], at: usize, number: u64)
    requires { at + 8 ≤ length out.old }
    ensures value { take (at + 8) out.new ≡ take at out.old ++ int64 number }
    ensures length { length out.new ≡ length out.old }
{
    out[at..at + 8].copy_from_slice(&number.to_be_bytes());
}

fn ask_of(ask: bool) -> u8
    ensures { result ≡ ask_byte ask }
{
    if ask { ASKS } else { SILENT }
}
