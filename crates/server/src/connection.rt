//! A connection: what has come of it and isn't answered yet, and how far its conversation is.

ghost use Rattle.std.specs.Prelude.{◌≡◌, ◌≢◌, ◌↔◌, ◌<◌, ◌++◌, ℕ, length, OnOk, OnErr, IfOk, [], Err, false, true};
ghost use Rattle.pqformat.specs.Fields.{byte_at};
ghost use Rattle.server.specs.Segment.{Went, HasCause, Broke, Asks, Ended, UnlessMemory, has_command, has_query, is_copying, most_turns, phase_of};
ghost use Rattle.server.specs.Conversation.{Tried};
ghost use Rattle.server.specs.Turns.{IsTurn, Waits, end_turn};
ghost use Rattle.server.specs.declared.connection_terms.Dialect.TheVariants.{Commands};
ghost use Rattle.server.specs.declared.stages.stage.Stage.TheVariants.{Fresh, Closed};

use crate::backend::Backend;
use crate::connection_terms::{ConnectionTerms, Dialect};
use crate::fault::ConnFault;
use crate::said::ending::say_ended;
use crate::stages::copying::turn_copy;
use crate::stages::stage::{Stage, Turned};
use crate::stages::turn::turn;
use bytes::BytesMut;
use frames::{Cursor, QUERY};
use std::alloc::{AllocError, Global};
use std::mem;

/// What a connection waits for.
#[derive(Clone, Copy, Debug, PartialEq, Eq)]
pub enum Phase {
    /// The session's startup.
    Startup,
    /// A query, or the end.
    Idle,
    /// A status, or the end of the stream.
    Streaming,
    /// That all of the stream has been said, of which `stopped` tells.
    Stopping,
    /// Nothing.
    Closed,
}

/// The server's side of one connection, without its socket.
///
/// `take` is given the bytes as they come, in any cuts, and a backend; it adds the answers to a buffer. Who wants to do something
/// between two answers gives the bytes to `push`, and has them answered one by one by `answer`.
#[derive(Drop)]
pub struct Connection {
    pub(crate) alloc: Global,
    pub(crate) service: ConnectionTerms,
    pub(crate) stage: Stage,
    /// What has come and isn't answered yet.
    pub(crate) pending: BytesMut,
}

impl Connection {
    /// The connection of this number, which waits for its startup. It answers the commands of the replication protocol alone.
    pub fn new(alloc: Global, number: u32) -> Self
        ensures service { result.service ≡ record { number = number; dialect = Commands } }
        ensures stage { result.stage ≡ Fresh }
        ensures pending { result.pending.items ≡ [] }
    {
        let dialect = Dialect::Commands;
        Connection::served(alloc, ConnectionTerms { number, dialect })
    }

    /// A connection that is served so, and waits for its startup.
    pub fn served(alloc: Global, service: ConnectionTerms) -> Self
        ensures service { result.service ≡ service }
        ensures stage { result.stage ≡ Fresh }
        ensures pending { result.pending.items ≡ [] }
    {
        Connection {
            alloc,
            service,
            stage: Stage::Fresh,
            pending: BytesMut::new(alloc),
        }
    }

    pub fn phase(&self) -> Phase
        ensures { result ≡ phase_of self.now.stage }
    {
        match &self.stage {
            Stage::Fresh => Phase::Startup,
            Stage::Idle(_) | Stage::InBlock(_) | Stage::Copying(_) | Stage::Skipping(_) =>
                Phase::Idle,
            Stage::Streaming(_) => Phase::Streaming,
            Stage::Stopping(_) => Phase::Stopping,
            Stage::Closed => Phase::Closed,
        }
    }

    /// Whether what `answer` answers next is a query.
    pub fn has_command(&self) -> bool
        ensures { result ≡ has_command self.now.stage self.now.pending.items }
    {
        match &self.stage {
            Stage::Idle(_) | Stage::InBlock(_) => has_query(self.pending.as_slice()),
            Stage::Fresh
            | Stage::Copying(_)
            | Stage::Skipping(_)
            | Stage::Streaming(_)
            | Stage::Stopping(_)
            | Stage::Closed => false,
        }
    }

    /// More has come. `AllocError` where memory for it is refused; nothing of it is kept then.
    pub fn push(&mut self, bytes: &[u8]) -> Result<(), AllocError>
        ensures came { OnOk result (self.new.pending.items ≡ self.old.pending.items ++ bytes.now) }
        ensures err { OnErr result (self.new.pending.items ≡ self.old.pending.items) }
        ensures same { (self.new.stage ≡ self.old.stage) × (self.new.service ≡ self.old.service) }
    {
        self.pending.extend_from_slice(bytes)
    }

    /// Answers one startup or frame of what has come, the next. False: it isn't there whole, or waits for the end of the stream
    /// that stops. While a table is copied each call adds some of its rows, and answers nothing that has come.
    ///
    /// `Memory` (H1) closes the connection without a word: what stood in `out` stands there, and no more. `Closed` (H2): it is
    /// closed, and what has come is passed over.
    pub fn answer<D: Backend>(
        &mut self,
        backend: &mut D,
        out: &mut BytesMut,
    ) -> Result<bool, ConnFault>
        ensures went { UnlessMemory result
            (Went D.told HasCause [] self.old backend.old out.old.items self.new backend.new
            out.new.items) }
        ensures less { IfOk result
            (λ more. more ≡ true → most_turns self.new < most_turns self.old) }
        ensures waits { IfOk result
            (λ more. more ≡ false → Waits self.new.stage self.new.pending.items) }
        ensures unsaid { result ≡ Err ConnFault.Memory → out.new.items ≡ out.old.items }
        // Of the backend nothing is asked then, or all that the turn asks.
        ensures asked { result ≡ Err ConnFault.Memory →
            Tried D.told (Asks self.old.service self.old.stage self.old.pending.items) backend.old
            backend.new }
        ensures closed { OnErr result (self.new.stage ≡ Closed) }
        ensures ended { (result ≡ Err ConnFault.Closed) ↔ (self.old.stage ≡ Closed) }
    {
        if self.is_closed() {
            self.pending.clear();
            return Err(ConnFault::Closed);
        }
        let Ok(more) = self.step(backend, out) else {
            self.close();
            return Err(ConnFault::Memory);
        };
        Ok(more)
    }

    /// Takes one turn; false: what is pending has to wait for more. Refused, it says nothing.
    fn step<D: Backend>(&mut self, backend: &mut D, out: &mut BytesMut) -> Result<bool, AllocError>
        ensures went { OnOk result
            (Went D.told HasCause [] self.old backend.old out.old.items self.new backend.new
            out.new.items) }
        ensures less { IfOk result
            (λ more. more ≡ true → most_turns self.new < most_turns self.old) }
        ensures waits { IfOk result
            (λ more. more ≡ false → Waits self.new.stage self.new.pending.items) }
        ensures unsaid { OnErr result (out.new.items ≡ out.old.items) }
        ensures asked { OnErr result
            (Tried D.told (Asks self.old.service self.old.stage self.old.pending.items) backend.old
            backend.new) }
    {
        if self.is_copying() {
            return self.copy(backend, out);
        }
        self.take_turn(backend, out)
    }

    /// Takes one turn of a copy.
    fn copy<D: Backend>(&mut self, backend: &mut D, out: &mut BytesMut) -> Result<bool, AllocError>
        requires { is_copying self.old.stage ≡ true }
        ensures went { OnOk result
            (Went D.told HasCause [] self.old backend.old out.old.items self.new backend.new
            out.new.items) }
        ensures less { IfOk result
            (λ more. more ≡ true → most_turns self.new < most_turns self.old) }
        ensures waits { IfOk result
            (λ more. more ≡ false → Waits self.new.stage self.new.pending.items) }
        ensures unsaid { OnErr result (out.new.items ≡ out.old.items) }
        ensures asked { OnErr result
            (Tried D.told (Asks self.old.service self.old.stage self.old.pending.items) backend.old
            backend.new) }
    {
        let start = out.len();
        let stage = mem::replace(&mut self.stage, Stage::Closed);
        let Ok(stage) = turn_copy(self.alloc, stage, backend, out) else {
            out.truncate(start);
            return Err(AllocError);
        };
        self.stage = stage;
        Ok(true)
    }

    /// Takes one turn for what is pending.
    fn take_turn<D: Backend>(
        &mut self,
        backend: &mut D,
        out: &mut BytesMut,
    ) -> Result<bool, AllocError>
        requires { is_copying self.old.stage ≡ false }
        ensures went { OnOk result
            (Went D.told HasCause [] self.old backend.old out.old.items self.new backend.new
            out.new.items) }
        ensures less { IfOk result
            (λ more. more ≡ true → most_turns self.new < most_turns self.old) }
        ensures waits { IfOk result
            (λ more. more ≡ false → Waits self.new.stage self.new.pending.items) }
        ensures unsaid { OnErr result (out.new.items ≡ out.old.items) }
        ensures asked { OnErr result
            (Tried D.told (Asks self.old.service self.old.stage self.old.pending.items) backend.old
            backend.new) }
    {
        let start = out.len();
        let stage = mem::replace(&mut self.stage, Stage::Closed);
        let turned = turn(
            self.alloc,
            self.service,
            stage,
            self.pending.as_slice(),
            backend,
            out,
        );
        let Ok(Turned { stage, count }) = turned else {
            out.truncate(start);
            return Err(AllocError);
        };
        self.stage = stage;
        self.pending.advance(count);
        Ok(0 < count)
    }

    /// Takes all turns that the pending bytes and these make.
    fn hear<D: Backend>(
        &mut self,
        bytes: &[u8],
        backend: &mut D,
        out: &mut BytesMut,
    ) -> Result<(), AllocError>
        ensures went { OnOk result
            (Went D.told HasCause bytes.now self.old backend.old out.old.items self.new backend.new
            out.new.items) }
        ensures waits { OnOk result (Waits self.new.stage self.new.pending.items) }
        ensures broke { OnErr result
            (Broke D.told bytes.now self.old backend.old out.old.items backend.new out.new.items) }
    {
        self.pending.extend_from_slice(bytes)?;
        while self.step(backend, out)? {}
        Ok(())
    }

    fn close(&mut self)
        ensures stage { self.new.stage ≡ Closed }
    {
        let _ended = mem::replace(&mut self.stage, Stage::Closed);
    }

    fn is_copying(&self) -> bool
        ensures { result ≡ is_copying self.now.stage }
    {
        matches!(&self.stage, Stage::Copying(_))
    }

    fn is_closed(&self) -> bool
        ensures { (result ≡ true) ↔ (self.now.stage ≡ Closed) }
    {
        matches!(&self.stage, Stage::Closed)
    }

    /// Answers all that the client has sent up to the end of these bytes.
    ///
    /// `Memory` (H1) closes the connection without a word: `out` has the answers of the turns before, each whole. What comes to
    /// a closed connection is passed over: in the call that closed it silently, in later ones by `Closed` (H2).
    ///
    /// The client of a stream ends it by CopyDone. What comes after that is kept, and answered by the first call after
    /// `stopped`.
    pub fn take<D: Backend>(
        &mut self,
        bytes: &[u8],
        backend: &mut D,
        out: &mut BytesMut,
    ) -> Result<Phase, ConnFault>
        // The call carries the conversation on.
        ensures went { UnlessMemory result
            (Went D.told HasCause bytes.now self.old backend.old out.old.items self.new backend.new
            out.new.items) }
        // As far as memory goes, turn by turn.
        ensures broke { result ≡ Err ConnFault.Memory →
            Broke D.told bytes.now self.old backend.old out.old.items backend.new out.new.items }
        // All that can be answered is.
        ensures waits { UnlessMemory result (Waits self.new.stage self.new.pending.items) }
        ensures phase { IfOk result (λ p. p ≡ phase_of self.new.stage) }
        ensures closed { OnErr result (self.new.stage ≡ Closed) }
        ensures ended { (result ≡ Err ConnFault.Closed) ↔ (self.old.stage ≡ Closed) }
    {
        if self.is_closed() {
            self.pending.clear();
            return Err(ConnFault::Closed);
        }
        if self.hear(bytes, backend, out).is_err() {
            self.close();
            return Err(ConnFault::Memory);
        }
        Ok(self.phase())
    }

    /// Ends the stream that stops: all of it has been said. The connection waits for a query again, and the next `take`,
    /// which may bring no bytes, answers what was kept after the CopyDone.
    ///
    /// `Memory` (H1) closes the connection without a word: what stood in `out` stands there, and no more.
    pub fn stopped(&mut self, out: &mut BytesMut) -> Result<Phase, ConnFault>
        requires { phase_of self.old.stage ≡ Phase.Stopping }
        ensures ended { IfOk result (λ _. Ended self.old out.old.items self.new out.new.items) }
        ensures phase { IfOk result (λ p. p ≡ Phase.Idle) }
        ensures closed { OnErr result (self.new.stage ≡ Closed) }
        ensures unsaid { OnErr result (out.new.items ≡ out.old.items) }
        ensures memory { result ≢ Err ConnFault.Closed }
    {
        let start = out.len();
        let stage = mem::replace(&mut self.stage, Stage::Closed);
        if say_ended(self.alloc, out, self.service.dialect).is_err() {
            out.truncate(start);
            // Let go by one call, which keeps the proof short.
            drop(stage);
            return Err(ConnFault::Memory);
        }
        self.stage = after_end(stage);
        Ok(Phase::Idle)
    }
}

/// Whether a query stands at the front, whole.
fn has_query(bytes: &[u8]) -> bool
    ensures { result ≡ has_query (byte_at bytes.now) }
{
    let mut cursor = Cursor::new(bytes);
    if cursor.u8() != Some(QUERY) {
        return false;
    }
    match cursor.u32() {
        Some(length) => length as usize <= 4 + cursor.rest().len(),
        None => false,
    }
}

/// Where a stream's end leads to.
fn after_end(stage: Stage) -> Stage
    requires { phase_of stage ≡ Phase.Stopping }
    ensures { (service : ConnectionTerms) → IsTurn service stage (end_turn service.dialect) result }
{
    match stage {
        Stage::Stopping(database) => Stage::Idle(database),
        other => other,
    }
}
