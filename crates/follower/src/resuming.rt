//! Following a slot over lost connections: each transaction printed once, whole, and acknowledged after that.

ghost use Rattle.std.specs.Prelude.{◌≡◌, ◌⊎◌, ◌-◌, ◌≤◌, [], ℕ, List, OnErr, OnOk, length};
ghost use Rattle.std.specs.Io.KnownBytes.{Keeps};
ghost use Rattle.follower.specs.Standing.{Goes, GoesOver, connected, standing};

use crate::fault::{FollowFault, OtherSystem};
use crate::login::asking::{ask_system, create_if_absent, greet, start_stream};
use crate::login::peer::Peer;
use crate::options::Options;
use crate::printing::output::Output;
use crate::receiving::delivery::Delivery;
use crate::receiving::incoming::Incoming;
use crate::resume_point::ResumePoint;
use copyboth::clock_now;
use std::alloc::Global;
use std::random::RandomSource;
use std::sync::Wait;
use std::time::Clock;

/// What is followed over connections: how far it is, and what it still waits for.
#[derive(Drop)]
pub struct Subscription {
    alloc: Global,
    pub(crate) delivery: Delivery,
    /// The system whose transactions are printed, once it is known.
    system: Option<String>,
    pub(crate) is_created: bool,
    /// Whether a slot may be left of a copy that didn't come to its end.
    pub(crate) has_left_slot: bool,
    /// Whether the server was asked for a sign of life, and nothing has come since.
    is_asked: bool,
}

impl Subscription {
    /// Of one who has all that commits below the position of the options.
    pub fn new(alloc: Global, options: &Options<'_>) -> Self {
        Subscription::behind(alloc, options, &ResumePoint::new(), None)
    }

    /// Of one whose output holds so much already, up to its last whole transaction, and counts; and of this system, where that is
    /// known.
    pub fn behind(
        alloc: Global,
        options: &Options<'_>,
        kept: &ResumePoint,
        system: Option<String>,
    ) -> Self {
        let position = options.position.max(kept.position);
        let count = options.count.saturating_sub(kept.transactions);
        Subscription {
            alloc,
            delivery: Delivery::new(alloc, options, &kept.cut(), position, count),
            system,
            is_created: false,
            has_left_slot: false,
            is_asked: false,
        }
    }

    /// A slot of the options' name is left of a copy that an earlier run didn't bring to its end: the next copy drops it first.
    pub fn note_left_slot(&mut self) {
        self.has_left_slot = true;
    }

    /// All that commits below it was printed.
    pub fn position(&self) -> u64 {
        self.delivery.receiver.position()
    }
}

/// Follows the slot over one connection, as `follow` does, from where the subscription is. The server is asked first which system
/// it is: one after the other has to be the same, since positions of another say nothing of what was printed (K7). What
/// `options.create` asks for is that the slot is there. Each transaction is printed when it is whole, and once, whatever came of
/// it on connections before; the Relation of a table stands in front of its first change. What was printed is acknowledged before
/// more is read, and where the server asks. Where a read of the socket gives up, the server is asked for a keepalive; where the
/// next one does too, it is silent. After all of them stands the last line of the form, if it has one.
///
/// Faults as of `follow`, and `OtherSystem` (K7) where the server is another system than before, or than the options say. Where the
/// fault is a passing one (`FollowFault::is_passing`), the subscription goes on over another connection. Once all is printed, a
/// connection that is lost is no fault.
pub fn resume<R: Wait + Clock + RandomSource, S: Peer, W: Output>(
    rt: &R,
    alloc: Global,
    socket: &mut S,
    options: &Options<'_>,
    subscription: &mut Subscription,
    output: &mut W,
) -> Result<(), FollowFault>
    ensures goes { (unread : List ℕ) → (left : List ℕ) × GoesOver
        (standing subscription.old.delivery unread (W.contents output.old) (W.kept output.old)
        (S.contents socket.old))
        (standing subscription.new.delivery left (W.contents output.new) (W.kept output.new)
        (S.contents socket.new)) }
    ensures all { OnOk result ((subscription.new.delivery.receiver.applier.subscriber.applied ≡ [])
        × (subscription.new.delivery.receiver.left ≡ 0)
        × (W.kept output.new ≡ W.contents output.new)) }
{
    let mut incoming = Incoming::new(alloc);
    subscription.ask_for_stream(rt, &mut incoming, socket, options, output)?;
    let ended = subscription.take_frames(rt, &mut incoming, socket, output);
    drop(incoming);
    match ended {
        Err(FollowFault::Output(fault)) => return Err(FollowFault::Output(fault)),
        ended => return subscription.finish(ended, socket, output),
    }
}

impl Subscription {
    /// Asks for the stream, up to its first frame.
    fn ask_for_stream<R: Wait + RandomSource, S: Peer, W: Output>(
        &mut self,
        rt: &R,
        incoming: &mut Incoming,
        socket: &mut S,
        options: &Options<'_>,
        output: &mut W,
    ) -> Result<(), FollowFault>
        ensures written { Keeps (W.contents output.old) (W.contents output.new) }
        ensures ok { OnOk result (self.new.delivery ≡ connected self.old.delivery) }
        ensures err { OnErr result ((self.new.delivery ≡ self.old.delivery)
            ⊎ (self.new.delivery ≡ connected self.old.delivery)) }
    {
        self.introduce(rt, incoming, socket, options, output)?;
        self.is_asked = false;
        let position = self.connect();
        start_stream(rt, self.alloc, incoming, socket, options, position)
    }

    /// Meets the server, and creates the slot once: if it is dropped later, what it missed would be lost.
    fn introduce<R: Wait + RandomSource, S: Peer, W: Output>(
        &mut self,
        rt: &R,
        incoming: &mut Incoming,
        socket: &mut S,
        options: &Options<'_>,
        output: &mut W,
    ) -> Result<(), FollowFault>
        ensures written { Keeps (W.contents output.old) (W.contents output.new) }
        ensures delivery { self.new.delivery ≡ self.old.delivery }
    {
        self.be_introduced(rt, incoming, socket, options, output)?;
        if options.create && !self.is_created {
            create_if_absent(rt, self.alloc, incoming, socket, options.slot)?;
            self.is_created = true;
        }
        Ok(())
    }

    /// Meets the server.
    pub(crate) fn be_introduced<R: Wait + RandomSource, S: Peer, W: Output>(
        &mut self,
        rt: &R,
        incoming: &mut Incoming,
        socket: &mut S,
        options: &Options<'_>,
        output: &mut W,
    ) -> Result<(), FollowFault>
        ensures written { Keeps (W.contents output.old) (W.contents output.new) }
        ensures delivery { self.new.delivery ≡ self.old.delivery }
    {
        greet(rt, self.alloc, incoming, socket, options)?;
        let system = ask_system(rt, self.alloc, incoming, socket)?;
        judge_asked(self.alloc, options, system.as_str())?;
        self.meet(system, output)
    }

    /// A connection begins, or what is taken as the frames of one.
    pub(crate) fn connect(&mut self) -> u64
        ensures delivery { self.new.delivery ≡ connected self.old.delivery }
    {
        self.delivery.receiver.connect()
    }

    /// Takes the server for the system that it says it is, or refuses it where another one was followed.
    fn meet<W: Output>(&mut self, system: String, output: &mut W) -> Result<(), FollowFault>
        ensures written { Keeps (W.contents output.old) (W.contents output.new) }
        ensures delivery { self.new.delivery ≡ self.old.delivery }
    {
        match &self.system {
            None => {
                output
                    .keep_system(system.as_str())
                    .map_err(FollowFault::Output)?;
                self.system = Some(system);
                Ok(())
            }
            Some(before) => judge(self.alloc, before.as_str(), system),
        }
    }

    /// Takes frames until all that is waited for is there.
    fn take_frames<R: Wait + Clock, S: Peer, W: Output>(
        &mut self,
        rt: &R,
        incoming: &mut Incoming,
        socket: &mut S,
        output: &mut W,
    ) -> Result<(), FollowFault>
        ensures goes { Goes
            (standing self.old.delivery incoming.old.unread.items (W.contents output.old)
            (W.kept output.old) (S.contents socket.old))
            (standing self.new.delivery incoming.new.unread.items (W.contents output.new)
            (W.kept output.new) (S.contents socket.new)) }
        ensures complete { OnOk result (self.new.delivery.receiver.left
            ≤ length self.new.delivery.receiver.applier.subscriber.applied) }
    {
        for _ in rt.forever() {
            if self.delivery.receiver.is_complete() {
                break;
            }
            self.tell_time(rt);
            self.take_next(incoming, socket, output)?;
        }
        Ok(())
    }

    /// What the clock says is known from now on.
    fn tell_time<R: Clock>(&mut self, rt: &R)
        ensures { self.new
            ≡ record self.old {
              delivery = record self.old.delivery { clock = self.new.delivery.clock };
            } }
    {
        let clock = clock_now(rt, self.delivery.clock());
        self.delivery.tell_time(clock);
    }

    /// Takes the frame at the front, or waits for more of it. Where nothing comes, the server is asked for a keepalive, once.
    fn take_next<S: Peer, W: Output>(
        &mut self,
        incoming: &mut Incoming,
        socket: &mut S,
        output: &mut W,
    ) -> Result<(), FollowFault>
        ensures goes { Goes
            (standing self.old.delivery incoming.old.unread.items (W.contents output.old)
            (W.kept output.old) (S.contents socket.old))
            (standing self.new.delivery incoming.new.unread.items (W.contents output.new)
            (W.kept output.new) (S.contents socket.new)) }
    {
        if self.take_whole(incoming, socket, output)? {
            return Ok(());
        }
        self.delivery.settle(socket, output)?;
        match incoming.receive_more(socket) {
            Err(FollowFault::Silent) if !self.is_asked => {
                self.is_asked = true;
                return self.delivery.acknowledge(true, socket, output);
            }
            read => {
                self.is_asked = false;
                return read;
            }
        }
    }

    /// Takes the frame at the front, and answers whether there was one.
    pub(crate) fn take_whole<S: Peer, W: Output>(
        &mut self,
        incoming: &mut Incoming,
        socket: &mut S,
        output: &mut W,
    ) -> Result<bool, FollowFault>
        ensures goes { Goes
            (standing self.old.delivery incoming.old.unread.items (W.contents output.old)
            (W.kept output.old) (S.contents socket.old))
            (standing self.new.delivery incoming.new.unread.items (W.contents output.new)
            (W.kept output.new) (S.contents socket.new)) }
    {
        let Some((frame, length)) = incoming.whole()? else {
            return Ok(false);
        };
        let front = incoming.front(length);
        let taken = self.delivery.take(frame, front, socket, output);
        incoming.pass(length);
        taken?;
        Ok(true)
    }

    /// Prints what came before the end, and after all of it the last line; then ends the stream.
    fn finish<S: Peer, W: Output>(
        &mut self,
        ended: Result<(), FollowFault>,
        socket: &mut S,
        output: &mut W,
    ) -> Result<(), FollowFault>
        ensures goes { (unread : List ℕ) → Goes
            (standing self.old.delivery unread (W.contents output.old) (W.kept output.old)
            (S.contents socket.old))
            (standing self.new.delivery unread (W.contents output.new) (W.kept output.new)
            (S.contents socket.new)) }
        ensures all { OnOk result ((self.new.delivery.receiver.applier.subscriber.applied ≡ [])
            × (W.kept output.new ≡ W.contents output.new)) }
        ensures left { OnOk result (self.new.delivery.receiver.left ≡ self.old.delivery.receiver.left
            - length self.old.delivery.receiver.applier.subscriber.applied) }
        ensures ended { OnErr ended (OnOk result ⊥) }
    {
        self.delivery.print(output)?;
        ended?;
        self.delivery.print_last(output)?;
        let _ = self.delivery.end_stream(socket);
        Ok(())
    }
}

/// Refuses a server that is another system than the options say, where they say one (K7).
pub(crate) fn judge_asked(
    alloc: Global,
    options: &Options<'_>,
    system: &str,
) -> Result<(), FollowFault> {
    match options.system {
        Some(before) => judge(alloc, before, system.to_string(alloc)?),
        None => Ok(()),
    }
}

/// Refuses a server that is another system than the one before.
fn judge(alloc: Global, before: &str, now: String) -> Result<(), FollowFault> {
    if now.as_str() == before {
        return Ok(());
    }
    let before = before.to_string(alloc)?;
    Err(FollowFault::OtherSystem(OtherSystem { before, now }))
}
