//! A connection whose user may have to prove its password before it is served.

ghost use Rattle.std.specs.Prelude.{◌≡◌, ◌++◌, [], Err, Ok, Some, None, OnOk, OnErr, IfOk, IfSome, true, false, is_none};
ghost use Rattle.pqformat.specs.Putting.{Extends};
ghost use Rattle.server.specs.Segment.{Ended, HasCause, UnlessMemory, Went};
ghost use Rattle.server.specs.declared.stages.stage.Stage.TheVariants.{Fresh as Unopened};
ghost use Rattle.connections.specs.Guarding.{Guards, Hears, IsAuthenticated, IsNew, LetsIn, guarded_phase, is_closed};

use crate::authentication::stage::{AuthenticationStage, AuthenticationTurn, StartupUser};
use crate::authentication::turn::{Guarding, turn};
use crate::authentication::users::Users;
use bytes::BytesMut;
use pqformat::{Items, Text};
use server::{Backend, ConnFault, Connection, ConnectionTerms, Phase};
use std::alloc::{AllocError, Global};

/// What stands before a connection until its user is let in.
#[derive(Drop)]
pub(crate) struct Guard {
    pub stage: AuthenticationStage,
    /// What has come and isn't answered yet.
    pub pending: BytesMut,
    /// By which the user is asked: new and random, printable, and without a comma.
    pub nonce: Items<u8>,
}

/// The server's side of one connection, without its socket, from its startup on.
///
/// `push` is given the bytes as they come, in any cuts. Until the user is let in `authenticate` answers them one by one, and then
/// `answer`, as that of `Connection`.
#[derive(Drop)]
pub struct GuardedConnection {
    alloc: Global,
    pub(crate) guard: Option<Guard>,
    pub(crate) user: Option<Text>,
    pub(crate) connection: Connection,
}

impl GuardedConnection {
    /// A connection that is served so, and asks for no password.
    pub fn open(alloc: Global, service: ConnectionTerms) -> Self
        ensures guard { result.guard ≡ None }
        ensures service { result.connection.service ≡ service }
        ensures stage { result.connection.stage ≡ Unopened }
        ensures pending { result.connection.pending.items ≡ [] }
    {
        GuardedConnection {
            alloc,
            guard: None,
            user: None,
            connection: Connection::served(alloc, service),
        }
    }

    /// A connection that is served so once its user has proved its password. The nonce is to be new and random, printable, and
    /// without a comma.
    pub fn guarded(alloc: Global, service: ConnectionTerms, nonce: Items<u8>) -> Self
        ensures guard { IsNew nonce result.guard }
        ensures service { result.connection.service ≡ service }
        ensures stage { result.connection.stage ≡ Unopened }
        ensures pending { result.connection.pending.items ≡ [] }
    {
        GuardedConnection {
            alloc,
            guard: Some(Guard {
                stage: AuthenticationStage::Fresh,
                pending: BytesMut::new(alloc),
                nonce,
            }),
            user: None,
            connection: Connection::served(alloc, service),
        }
    }

    /// The user that was let in; None where none was asked for a password. It is given once.
    pub fn take_user(&mut self) -> Option<Text>
        ensures user { result ≡ self.old.user }
        ensures same { (self.new.guard ≡ self.old.guard) × (self.new.connection ≡ self.old.connection) }
    {
        self.user.take()
    }

    /// Whether no proof is waited for any more.
    pub fn is_let_in(&self) -> bool
        ensures { result ≡ is_none self.now.guard }
    {
        self.guard.is_none()
    }

    pub fn phase(&self) -> Phase
        ensures { result ≡ guarded_phase self.now.guard self.now.connection.stage }
    {
        match &self.guard {
            None => self.connection.phase(),
            Some(guard) if is_closed(&guard.stage) => Phase::Closed,
            Some(_) => Phase::Startup,
        }
    }

    /// Whether what `answer` answers next is a query.
    pub fn has_command(&self) -> bool {
        self.guard.is_none() && self.connection.has_command()
    }

    /// More has come. `AllocError` where memory for it is refused.
    pub fn push(&mut self, bytes: &[u8]) -> Result<(), AllocError>
        ensures guarded { is_none self.old.guard ≡ false →
            self.new.connection ≡ self.old.connection }
    {
        match &mut self.guard {
            Some(guard) => guard.pending.extend_from_slice(bytes),
            None => self.connection.push(bytes),
        }
    }

    /// Answers one startup or message of the exchange, the next, for these users. False: it isn't there whole, or the user is let in
    /// already.
    ///
    /// `Memory` (H1) closes the connection without a word: what stood in `out` stands there, and no more.
    pub fn authenticate(&mut self, users: &Users, out: &mut BytesMut) -> Result<bool, ConnFault>
        // The connection hears of nothing but the startup and what follows the proof.
        ensures turned { IfOk result
            (λ _. IsAuthenticated users.now self.old.guard self.old out.old.items self.new
            out.new.items) }
        ensures unsaid { OnErr result (out.new.items ≡ out.old.items) }
        ensures closed { OnErr result
            (guarded_phase self.new.guard self.new.connection.stage ≡ Phase.Closed) }
    {
        let Some(guard) = self.guard.take() else {
            return Ok(false);
        };
        let start = out.len();
        let Ok(more) = self.step(guard, users, out) else {
            out.truncate(start);
            self.close();
            return Err(ConnFault::Memory);
        };
        Ok(more)
    }

    /// Takes one turn behind this guard.
    fn step(&mut self, guard: Guard, users: &Users, out: &mut BytesMut) -> Result<bool, AllocError>
        requires { self.old.guard ≡ None }
        ensures turned { IfOk result
            (λ _. IsAuthenticated users.now (Some guard) self.old out.old.items self.new
            out.new.items) }
        ensures kept { OnErr result (Extends out.old.items out.new.items) }
    {
        let Guard {
            stage,
            mut pending,
            nonce,
        } = guard;
        let guarding = Guarding {
            users,
            nonce: nonce.as_slice(),
        };
        let AuthenticationTurn { stage, count } = turn(
            self.alloc,
            guarding,
            stage,
            pending.as_slice(),
            out,
        )?;
        pending.advance(count);
        self.stand(Guard {
            stage,
            pending,
            nonce,
        })?;
        Ok(0 < count)
    }

    /// The guard stands, or its user is let in.
    fn stand(&mut self, guard: Guard) -> Result<(), AllocError>
        requires { self.old.guard ≡ None }
        ensures { OnOk result
            (LetsIn guard.stage guard.pending.items guard.nonce self.old.connection self.new) }
    {
        let Guard {
            stage,
            pending,
            nonce,
        } = guard;
        match stage {
            AuthenticationStage::Passed(opening) => self.let_in(opening, pending.as_slice()),
            AuthenticationStage::Fresh => self.keep(AuthenticationStage::Fresh, pending, nonce),
            AuthenticationStage::Asked(asking) => self.keep(
                AuthenticationStage::Asked(asking),
                pending,
                nonce,
            ),
            AuthenticationStage::Closed => self.keep(AuthenticationStage::Closed, pending, nonce),
        }
    }

    fn keep(
        &mut self,
        stage: AuthenticationStage,
        pending: BytesMut,
        nonce: Items<u8>,
    ) -> Result<(), AllocError>
        ensures { OnOk result (Guards stage pending.items nonce self.old.connection self.new) }
    {
        self.guard = Some(Guard {
            stage,
            pending,
            nonce,
        });
        Ok(())
    }

    /// The connection hears the startup, and what came after the proof.
    fn let_in(&mut self, opening: StartupUser, rest: &[u8]) -> Result<(), AllocError>
        ensures { OnOk result
            ((self.new.guard ≡ self.old.guard) × (self.new.user ≡ Some opening.user)
            × Hears self.old.connection (opening.startup ++ rest.now) self.new.connection) }
    {
        let StartupUser { startup, user } = opening;
        self.connection.push(startup.as_slice())?;
        self.connection.push(rest)?;
        self.user = Some(user);
        Ok(())
    }

    /// Nothing is taken any more.
    fn close(&mut self)
        ensures { guarded_phase self.new.guard self.new.connection.stage ≡ Phase.Closed }
    {
        self.guard = Some(Guard {
            stage: AuthenticationStage::Closed,
            pending: BytesMut::new(self.alloc),
            nonce: Items::new(Vec::new(self.alloc)),
        });
    }

    /// Answers one startup or frame of what has come, the next, as `Connection::answer` does, with its `Memory` (H1) and
    /// `Closed` (H2). Before the user is let in it answers nothing.
    pub fn answer<D: Backend>(
        &mut self,
        backend: &mut D,
        out: &mut BytesMut,
    ) -> Result<bool, ConnFault>
        ensures guarded { is_none self.old.guard ≡ false →
            (result ≡ Ok false) × (self.new ≡ self.old) × (backend.new ≡ backend.old)
            × (out.new.items ≡ out.old.items) }
        ensures went { is_none self.old.guard ≡ true →
            UnlessMemory result
            (Went D.told HasCause [] self.old.connection backend.old out.old.items
            self.new.connection backend.new out.new.items) }
        ensures unsaid { result ≡ Err ConnFault.Memory → out.new.items ≡ out.old.items }
    {
        if self.guard.is_some() {
            return Ok(false);
        }
        self.connection.answer(backend, out)
    }

    /// Ends the stream that stops, as `Connection::stopped` does, with its `Memory` (H1).
    pub fn stopped(&mut self, out: &mut BytesMut) -> Result<Phase, ConnFault>
        requires { guarded_phase self.old.guard self.old.connection.stage ≡ Phase.Stopping }
        ensures ended { IfOk result
            (λ _. Ended self.old.connection out.old.items self.new.connection out.new.items) }
        ensures phase { IfOk result (λ p. p ≡ Phase.Idle) }
        ensures unsaid { OnErr result (out.new.items ≡ out.old.items) }
    {
        self.connection.stopped(out)
    }
}

fn is_closed(stage: &AuthenticationStage) -> bool
    ensures { result ≡ is_closed stage.now }
{
    matches!(stage, AuthenticationStage::Closed)
}
