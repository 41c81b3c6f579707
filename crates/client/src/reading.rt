//! The words at the front of a server's bytes.

ghost use Rattle.std.specs.Prelude.{◌≡◌, Err};
ghost use Rattle.client.specs.Words.{Reads, ReadsBody, ReadsFrame, ReadsMessage, TakesMemory};

use crate::fault::ClientFault;
use copyboth::{ServerBody, read_server};
use frames::{Back, FrameFault, read_back};
use pgoutput::{CopyBothMessage, Keepalive, Logical, PgoutputError, XLogData, read_logical};
use std::alloc::Global;

/// The word at the front, and how many bytes its frame takes; None while no frame is there whole.
///
/// `Frame` (K1) at what is no frame of a stream, `Server` (K4) at an ErrorResponse, `Memory` (K5).
pub(crate) fn read_word(
    alloc: Global,
    bytes: &[u8],
) -> Result<Option<(CopyBothMessage, usize)>, ClientFault>
    ensures reads { Reads bytes.now result }
    ensures memory { result ≡ Err ClientFault.Memory → TakesMemory bytes.now }
{
    match read_back(alloc, bytes) {
        Ok(None) => Ok(None),
        Ok(Some((frame, size))) => {
            let word = word_of(alloc, &frame);
            // Let go before the way out, which keeps the proof short.
            drop(frame);
            Ok(Some((word?, size)))
        }
        Err(FrameFault::Memory) => Err(ClientFault::Memory),
        Err(_) => Err(ClientFault::Frame),
    }
}

/// The word that a frame says.
fn word_of(alloc: Global, frame: &Back) -> Result<CopyBothMessage, ClientFault>
    ensures { ReadsFrame frame.now result }
{
    match frame {
        Back::CopyData(data) => word_in(alloc, data.bytes.as_slice()),
        Back::ErrorResponse(_) => Err(ClientFault::Server),
        _ => Err(ClientFault::Frame),
    }
}

/// The word that the body of a CopyData says.
fn word_in(alloc: Global, body: &[u8]) -> Result<CopyBothMessage, ClientFault>
    ensures { ReadsBody body.now result }
{
    let Ok(said) = read_server(body) else {
        return Err(ClientFault::Frame);
    };
    match said {
        ServerBody::Keepalive(keepalive) => Ok(CopyBothMessage::Keepalive(Keepalive {
            position: keepalive.end,
            clock: keepalive.clock,
            ask: keepalive.ask,
        })),
        ServerBody::XLogData(data) => {
            let message = message_of(alloc, data.payload)?;
            Ok(CopyBothMessage::XLogData(XLogData {
                start: data.start,
                end: data.end,
                clock: data.clock,
                message,
            }))
        }
    }
}

fn message_of(alloc: Global, payload: &[u8]) -> Result<Logical, ClientFault>
    ensures { ReadsMessage payload.now result }
{
    match read_logical(alloc, payload) {
        Ok(message) => Ok(message),
        Err(PgoutputError::Memory) => Err(ClientFault::Memory),
        Err(_) => Err(ClientFault::Frame),
    }
}
