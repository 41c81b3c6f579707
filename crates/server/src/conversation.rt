//! A whole conversation over a connection.

ghost use Rattle.std.specs.Prelude.{◌≢◌, OnOk, Err};
ghost use Rattle.std.specs.List.{flat_map};
ghost use Rattle.server.specs.Conversation.{Gave};
ghost use Rattle.server.specs.Segment.{Happened, UnlessMemory, bytes_heard};
ghost use Rattle.server.specs.Turns.{IsConversation};

use crate::backend::Backend;
use crate::connection::{Connection, Phase};
use crate::connection_terms::ConnectionTerms;
use crate::fault::ConnFault;
use bytes::BytesMut;
use std::alloc::{AllocError, Global};

/// What happens on a connection.
#[derive(Drop)]
pub enum ConnectionEvent {
    /// Bytes of the client come.
    Came(Vec<u8>),
    /// The sender of a stream that stops has no more.
    AllSent,
}

/// Lets this happen on the connection. That all has been sent is passed over where no stream stops.
#[tactic(auto, using(crate::proofs::Segments::if_stopping, crate::proofs::Segments::unless_stopping))]
fn happen<D: Backend>(
    connection: &mut Connection,
    event: &ConnectionEvent,
    backend: &mut D,
    out: &mut BytesMut,
) -> Result<(), ConnFault>
    ensures { UnlessMemory result
        (Happened D.told event.now connection.old backend.old out.old.items connection.new backend.new
        out.new.items) }
{
    match event {
        ConnectionEvent::Came(bytes) => {
            connection.take(bytes.as_slice(), backend, out)?;
        }
        ConnectionEvent::AllSent => {
            if connection.phase() == Phase::Stopping {
                connection.stopped(out)?;
            }
        }
    }
    Ok(())
}

/// Whether the connection can go on.
fn unless_memory(answer: Result<(), ConnFault>) -> Result<(), AllocError>
    ensures { OnOk result (answer ≢ Err ConnFault.Memory) }
{
    match answer {
        Err(ConnFault::Memory) => Err(AllocError),
        _ => Ok(()),
    }
}

/// Holds a whole conversation on a connection that is served so: what the client sends comes in any cuts, and streams that stop
/// end in between. `AllocError` where memory is refused: the connection is closed then, and the events after it don't happen.
pub fn converse<D: Backend>(
    alloc: Global,
    service: ConnectionTerms,
    events: &[ConnectionEvent],
    backend: &mut D,
    out: &mut BytesMut,
) -> Result<(), AllocError>
    ensures { OnOk result
        (Gave D.told
        (IsConversation service (flat_map bytes_heard events.now)) backend.old out.old.items
        backend.new out.new.items) }
{
    let mut connection = Connection::served(alloc, service);
    for event in events {
        let happened = happen(&mut connection, event, backend, out);
        if let Err(fault) = unless_memory(happened) {
            // Let go by one call, which keeps the proof short.
            drop(connection);
            return Err(fault);
        }
    }
    drop(connection);
    Ok(())
}
