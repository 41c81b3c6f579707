//! A copy that is printed, before the stream of its slot.

ghost use Rattle.std.specs.Prelude.{◌≡◌, ◌⊎◌, [], ℕ, List, IfOk, OnErr, OnOk};
ghost use Rattle.std.specs.Io.KnownBytes.{Keeps};
ghost use Rattle.follower.specs.Standing.{Goes, GoesOver, connected, standing};

use crate::copying::session::{CopySession, drop_left};
use crate::fault::FollowFault;
use crate::login::asking::IS_THERE;
use crate::login::peer::Peer;
use crate::options::Options;
use crate::printing::output::Output;
use crate::receiving::incoming::Incoming;
use crate::resuming::Subscription;
use bytes::BytesMut;
use std::alloc::Global;
use std::random::RandomSource;
use std::sync::Wait;

/// Makes the slot of the options, and prints the rows of their publications' tables that committed before its point, as one
/// transaction of inserts whose end is that point: `resume` then goes on there. It is printed when it is whole, and until then kept
/// in memory. Only those columns and rows are copied that are published; which operations are is of no matter.
///
/// The server has to answer what PostgreSQL's own subscribers ask, as `pubd --answer-postgresql` does. The options' position is 0.
///
/// Faults as of `resume`; `Server` (K4) where the slot is there, and `NoPublication` (K10). Where the fault is a passing one, the
/// same can be asked again over another connection: a slot that is left of a copy that didn't come to its end is dropped first.
pub fn copy_rows<R: Wait + RandomSource, S: Peer, W: Output>(
    rt: &R,
    alloc: Global,
    socket: &mut S,
    options: &Options<'_>,
    subscription: &mut Subscription,
    output: &mut W,
) -> Result<(), FollowFault>
    ensures goes { (unread : List ℕ) → (left : List ℕ) × GoesOver
        (standing subscription.old.delivery unread (W.contents output.old) (W.kept output.old)
        (S.contents socket.old))
        (standing subscription.new.delivery left (W.contents output.new) (W.kept output.new)
        (S.contents socket.new)) }
    ensures all { OnOk result (subscription.new.delivery.receiver.applier.subscriber.applied ≡ []) }
{
    let mut made = subscription.ask_for_copy(rt, alloc, socket, options, output)?;
    let printed = subscription.print_copy(rt, &mut made, socket, output);
    drop(made);
    printed
}

impl Subscription {
    /// Asks for all rows, as the frames of one transaction.
    fn ask_for_copy<R: Wait + RandomSource, S: Peer, W: Output>(
        &mut self,
        rt: &R,
        alloc: Global,
        socket: &mut S,
        options: &Options<'_>,
        output: &mut W,
    ) -> Result<Incoming, FollowFault>
        ensures written { Keeps (W.contents output.old) (W.contents output.new) }
        ensures ok { OnOk result (self.new.delivery ≡ connected self.old.delivery) }
        ensures err { OnErr result ((self.new.delivery ≡ self.old.delivery)
            ⊎ (self.new.delivery ≡ connected self.old.delivery)) }
    {
        let mut incoming = Incoming::new(alloc);
        let frames = self.copied(rt, alloc, &mut incoming, socket, options, output);
        drop(incoming);
        let frames = frames?;
        self.connect();
        Ok(Incoming::of(alloc, frames))
    }

    /// Meets the server, and copies. What is there of the slot of a copy before is dropped.
    fn copied<R: Wait + RandomSource, S: Peer, W: Output>(
        &mut self,
        rt: &R,
        alloc: Global,
        incoming: &mut Incoming,
        socket: &mut S,
        options: &Options<'_>,
        output: &mut W,
    ) -> Result<BytesMut, FollowFault>
        ensures written { Keeps (W.contents output.old) (W.contents output.new) }
        ensures delivery { self.new.delivery ≡ self.old.delivery }
    {
        self.be_introduced(rt, incoming, socket, options, output)?;
        let copy = CopySession::begin(rt, alloc, incoming, socket, options.publications)?;
        if self.has_left_slot {
            drop_left(rt, alloc, incoming, socket, options.slot)?;
        }
        output
            .note_copy(Some(options.slot))
            .map_err(FollowFault::Output)?;
        self.has_left_slot = true;
        let copied = copy.copy(rt, alloc, incoming, socket, options.slot);
        drop(copy);
        match copied {
            Ok(frames) => Ok(frames),
            Err(fault) => Err(self.refused(fault, output)),
        }
    }

    /// What a copy ended by. Where its slot was there before, it isn't this one's to drop.
    fn refused<W: Output>(&mut self, fault: FollowFault, output: &mut W) -> FollowFault
        ensures written { Keeps (W.contents output.old) (W.contents output.new) }
        ensures delivery { self.new.delivery ≡ self.old.delivery }
    {
        let is_there = match &fault {
            FollowFault::Server(said) => said.code.as_str() == IS_THERE,
            _ => false,
        };
        if is_there {
            self.has_left_slot = false;
            let _ = output.note_copy(None);
        }
        fault
    }

    /// Prints what these frames hold, and has it kept. Then no slot is left over.
    fn print_copy<R: Wait, S: Peer, W: Output>(
        &mut self,
        rt: &R,
        made: &mut Incoming,
        socket: &mut S,
        output: &mut W,
    ) -> Result<(), FollowFault>
        ensures goes { Goes
            (standing self.old.delivery made.old.unread.items (W.contents output.old)
            (W.kept output.old) (S.contents socket.old))
            (standing self.new.delivery made.new.unread.items (W.contents output.new)
            (W.kept output.new) (S.contents socket.new)) }
        ensures all { OnOk result (self.new.delivery.receiver.applier.subscriber.applied ≡ []) }
    {
        self.take_made(rt, made, socket, output)?;
        self.delivery.print(output)?;
        self.is_created = true;
        self.has_left_slot = false;
        output.note_copy(None).map_err(FollowFault::Output)
    }

    /// Takes all of these frames.
    fn take_made<R: Wait, S: Peer, W: Output>(
        &mut self,
        rt: &R,
        made: &mut Incoming,
        socket: &mut S,
        output: &mut W,
    ) -> Result<(), FollowFault>
        ensures goes { Goes
            (standing self.old.delivery made.old.unread.items (W.contents output.old)
            (W.kept output.old) (S.contents socket.old))
            (standing self.new.delivery made.new.unread.items (W.contents output.new)
            (W.kept output.new) (S.contents socket.new)) }
    {
        for _ in rt.forever() {
            if !self.take_whole(made, socket, output)? {
                return Ok(());
            }
        }
        Ok(())
    }
}
