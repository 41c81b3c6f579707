//! What is made of the frames of a stream: what is taken of them, how that is printed, and what is acknowledged.

ghost use Rattle.std.specs.Prelude.{◌≡◌, ◌⊎◌, ◌-◌, ◌++◌, [], ℕ, length, List, Option, OnErr, OnOk, take};
ghost use Rattle.std.specs.Io.KnownBytes.{Appends};
ghost use Rattle.follower.specs.Standing.{FailsToHand, Goes, HandsOver, standing, status_at};

use crate::fault::FollowFault;
use crate::options::Options;
use crate::printing::output::Output;
use crate::printing::printer::Printer;
use crate::receiving::giving::give;
use crate::receiving::stream_receiver::StreamReceiver;
use crate::receiving::streamed::{body_in, carried, message_in};
use crate::resume_point::ResumePoint;
use bytes::BytesMut;
use client::ClientFault;
use copyboth::ServerBody;
use frames::{Back, Front, write_front};
use pgoutput::{COMMIT, Logical, MESSAGE, RELATION, Relation};
use std::alloc::Global;
use std::io;
use std::io::Write;

/// What was taken of a slot's streams, over all connections, and how it is printed.
#[derive(Drop)]
pub(crate) struct Delivery {
    alloc: Global,
    pub(crate) receiver: StreamReceiver,
    printer: Printer,
    /// Whether the output has failed. Then nobody knows how much of the lines came to it, and nothing is printed after them: another
    /// run goes on from what it holds.
    is_broken: bool,
    /// What the clock said last, in microseconds since 2000-01-01.
    clock: i64,
}

impl Delivery {
    /// After a position, for so many transactions, into an output that holds so much already.
    pub(crate) fn new(
        alloc: Global,
        options: &Options<'_>,
        kept: &ResumePoint,
        position: u64,
        count: u32,
    ) -> Self {
        Delivery {
            alloc,
            receiver: StreamReceiver::new(alloc, position, count),
            printer: Printer::new(alloc, options.form, kept, options.send_times),
            is_broken: false,
            clock: 0,
        }
    }

    /// What the clock said last.
    pub(crate) fn clock(&self) -> i64
        ensures { result ≡ self.now.clock }
    {
        self.clock
    }

    /// The clock says this now.
    pub(crate) fn tell_time(&mut self, clock: i64)
        ensures { self.new ≡ record self.old { clock = clock } }
    {
        self.clock = clock;
    }

    /// Takes a frame, and does what it asks for. `Client` where an applier refuses it (K1 to K3, K5, K8), `Server` (K4) where it
    /// tells an error, `Ended` (K6) where the stream ends; else faults as of `acknowledge`.
    pub(crate) fn take<S: Write, W: Output>(
        &mut self,
        frame: Back,
        bytes: &[u8],
        socket: &mut S,
        output: &mut W,
    ) -> Result<(), FollowFault>
        ensures goes { (rest : List ℕ) → Goes
            (standing self.old (bytes.now ++ rest) (W.contents output.old) (W.kept output.old)
            (S.contents socket.old))
            (standing self.new rest (W.contents output.new) (W.kept output.new)
            (S.contents socket.new)) }
    {
        let taken = self.receiver.take(bytes);
        self.answer(frame, taken, socket, output)
    }

    /// Does what a frame asks for that the receiver took so.
    #[tactic(auto, using(crate::proofs::Going::goes_nowhere))]
    fn answer<S: Write, W: Output>(
        &mut self,
        frame: Back,
        taken: Result<(), ClientFault>,
        socket: &mut S,
        output: &mut W,
    ) -> Result<(), FollowFault>
        ensures goes { (unread : List ℕ) → Goes
            (standing self.old unread (W.contents output.old) (W.kept output.old)
            (S.contents socket.old))
            (standing self.new unread (W.contents output.new) (W.kept output.new)
            (S.contents socket.new)) }
    {
        let data = carried(frame, taken)?;
        match body_in(&data)? {
            ServerBody::XLogData(message) => {
                self.note_sent(message.payload, message.clock)?;
                return self.learn(message.payload, output);
            }
            ServerBody::Keepalive(keepalive) if keepalive.ask => {
                return self.acknowledge(false, socket, output);
            }
            ServerBody::Keepalive(_) => {}
        }
        Ok(())
    }

    /// Notes when a message was sent, if that is printed.
    fn note_sent(&mut self, payload: &[u8], clock: i64) -> Result<(), FollowFault>
        ensures { self.new ≡ record self.old { printer = self.new.printer } }
    {
        let is_timed = payload.first() == Some(&COMMIT) || payload.first() == Some(&MESSAGE);
        if is_timed && self.printer.has_send_times() {
            let message = message_in(self.alloc, payload)?;
            let noted = self.printer.note_sent(&message, clock);
            drop(message);
            noted?;
        }
        Ok(())
    }

    /// Of a message, what it tells of a table.
    #[tactic(auto, using(crate::proofs::Going::goes_nowhere))]
    fn learn<W: Output>(&mut self, payload: &[u8], output: &mut W) -> Result<(), FollowFault>
        ensures goes { (unread : List ℕ) (sent : Option (List ℕ)) → Goes
            (standing self.old unread (W.contents output.old) (W.kept output.old) sent)
            (standing self.new unread (W.contents output.new) (W.kept output.new) sent) }
    {
        if payload.first() != Some(&RELATION) {
            return Ok(());
        }
        match message_in(self.alloc, payload)? {
            Logical::Relation(relation) => return self.tell(relation, output),
            other => drop(other),
        }
        Ok(())
    }

    /// Keeps what is told of a table.
    #[tactic(auto, using(crate::proofs::Going::goes_nowhere))]
    fn tell<W: Output>(&mut self, relation: Relation, output: &mut W) -> Result<(), FollowFault>
        ensures goes { (unread : List ℕ) (sent : Option (List ℕ)) → Goes
            (standing self.old unread (W.contents output.old) (W.kept output.old) sent)
            (standing self.new unread (W.contents output.new) (W.kept output.new) sent) }
    {
        self.print_before(&relation, output)?;
        Ok(self.printer.tell(relation)?)
    }

    /// Prints what is there by what was told of a table before, where that was something else.
    #[tactic(auto, using(crate::proofs::Going::goes_nowhere))]
    fn print_before<W: Output>(
        &mut self,
        relation: &Relation,
        output: &mut W,
    ) -> Result<(), FollowFault>
        ensures goes { (unread : List ℕ) (sent : Option (List ℕ)) → Goes
            (standing self.old unread (W.contents output.old) (W.kept output.old) sent)
            (standing self.new unread (W.contents output.new) (W.kept output.new) sent) }
    {
        if !self.printer.has_told_else(relation) {
            return Ok(());
        }
        self.print(output)
    }

    /// Acknowledges what is there, where something is. Faults as of `acknowledge`.
    #[tactic(auto, using(crate::proofs::Going::goes_nowhere))]
    pub(crate) fn settle<S: Write, W: Output>(
        &mut self,
        socket: &mut S,
        output: &mut W,
    ) -> Result<(), FollowFault>
        ensures goes { (unread : List ℕ) → Goes
            (standing self.old unread (W.contents output.old) (W.kept output.old)
            (S.contents socket.old))
            (standing self.new unread (W.contents output.new) (W.kept output.new)
            (S.contents socket.new)) }
        ensures settled { OnOk result (self.new.receiver.applier.subscriber.applied ≡ []) }
    {
        if self.receiver.unprinted().is_empty() {
            return Ok(());
        }
        self.acknowledge(false, socket, output)
    }

    /// Tells the server the position, after what was printed, and may ask for a keepalive. Faults as of `print`, then `Connection`
    /// (K6).
    pub(crate) fn acknowledge<S: Write, W: Output>(
        &mut self,
        ask: bool,
        socket: &mut S,
        output: &mut W,
    ) -> Result<(), FollowFault>
        ensures goes { (unread : List ℕ) → Goes
            (standing self.old unread (W.contents output.old) (W.kept output.old)
            (S.contents socket.old))
            (standing self.new unread (W.contents output.new) (W.kept output.new)
            (S.contents socket.new)) }
        ensures settled { OnOk result (self.new.receiver.applier.subscriber.applied ≡ []) }
        ensures told { OnOk result (Appends (S.contents socket.old) (S.contents socket.new)
            (status_at self.new.receiver.applier.subscriber.position self.new.clock ask)) }
        ensures clock { self.new.clock ≡ self.old.clock }
    {
        self.print(output)?;
        self.send_status(ask, socket)
    }

    /// Tells the server the position.
    fn send_status<S: Write>(&self, ask: bool, socket: &mut S) -> Result<(), FollowFault>
        requires { self.now.receiver.applier.subscriber.applied ≡ [] }
        ensures part { (count : ℕ) × Appends (S.contents socket.old) (S.contents socket.new)
            (take count
            (status_at self.now.receiver.applier.subscriber.position self.now.clock ask)) }
        ensures ok { OnOk result (Appends (S.contents socket.old) (S.contents socket.new)
            (status_at self.now.receiver.applier.subscriber.position self.now.clock ask)) }
    {
        let status = self.receiver.status(self.clock, ask);
        send(&status, socket)
    }

    /// The last status, and the end of the stream. `Connection` (K6), or `Client` (K5) where memory is refused.
    pub(crate) fn end_stream<S: Write>(&self, socket: &mut S) -> Result<(), FollowFault>
        requires { self.now.receiver.applier.subscriber.applied ≡ [] }
        ensures goes { (unread : List ℕ) (written : Option (List ℕ)) → Goes
            (standing self.now unread written written (S.contents socket.old))
            (standing self.now unread written written (S.contents socket.new)) }
    {
        self.send_status(false, socket)?;
        let mut end = BytesMut::new(self.alloc);
        write_front(&Front::CopyDone, &mut end)?;
        send(end.as_slice(), socket)
    }

    /// Prints what is there, and has it kept. `Client` where a row doesn't fit its table (K2), that wasn't told (K3), or memory for
    /// the lines is refused (K5): then nothing was printed. `Output` (K6) where the output fails.
    pub(crate) fn print<W: Output>(&mut self, output: &mut W) -> Result<(), FollowFault>
        ensures goes { (unread : List ℕ) (sent : Option (List ℕ)) → Goes
            (standing self.old unread (W.contents output.old) (W.kept output.old) sent)
            (standing self.new unread (W.contents output.new) (W.kept output.new) sent) }
        ensures position { self.new.receiver.applier.subscriber.position
            ≡ self.old.receiver.applier.subscriber.position }
        ensures settled { OnOk result (self.new.receiver.applier.subscriber.applied ≡ []) }
        ensures left { OnOk result (self.new.receiver.left
            ≡ self.old.receiver.left - length self.old.receiver.applier.subscriber.applied) }
        ensures kept { OnOk result (W.kept output.new ≡ W.contents output.new) }
        ensures clock { self.new.clock ≡ self.old.clock }
    {
        let lines = self.lines()?;
        self.hand(lines.as_slice(), output)?;
        self.receiver.printed();
        Ok(())
    }

    /// Prints what stands after all, once all is printed. `Client` (K5) where memory is refused, `Output` (K6) where the output
    /// fails.
    pub(crate) fn print_last<W: Output>(&mut self, output: &mut W) -> Result<(), FollowFault>
        requires { self.old.receiver.applier.subscriber.applied ≡ [] }
        ensures goes { (unread : List ℕ) (sent : Option (List ℕ)) → Goes
            (standing self.old unread (W.contents output.old) (W.kept output.old) sent)
            (standing self.new unread (W.contents output.new) (W.kept output.new) sent) }
        ensures receiver { self.new.receiver ≡ self.old.receiver }
        ensures kept { OnOk result (W.kept output.new ≡ W.contents output.new) }
    {
        let lines = self.printer.last(self.alloc)?;
        self.hand(lines.as_slice(), output)
    }

    /// The lines of what is there. They are made before the first is printed, so that want of memory prints no half transaction.
    fn lines(&mut self) -> Result<Vec<u8>, FollowFault>
        ensures same { self.new ≡ record self.old { printer = self.new.printer } }
    {
        let mut lines = Vec::new(self.alloc);
        for transaction in self.receiver.unprinted() {
            self.printer.add(transaction, &mut lines)?;
        }
        Ok(lines)
    }

    /// Has lines printed and kept, unless the output has failed.
    fn hand<W: Output>(&mut self, lines: &[u8], output: &mut W) -> Result<(), FollowFault>
        ensures same { self.new ≡ record self.old { is_broken = self.new.is_broken } }
        ensures ok { OnOk result (HandsOver lines.now self.old.is_broken self.new.is_broken
            (W.contents output.old) (W.contents output.new) (W.kept output.new)) }
        ensures err { OnErr result (((self.new ≡ self.old) × (output.new ≡ output.old))
            ⊎ FailsToHand lines.now self.old.is_broken self.new.is_broken
            (W.contents output.old) (W.contents output.new)) }
    {
        if self.is_broken {
            return Err(FollowFault::Output(io::Error::other(FAILED_BEFORE)));
        }
        self.is_broken = true;
        print_kept(lines, output)?;
        self.is_broken = false;
        Ok(())
    }
}

const FAILED_BEFORE: &str = "it has failed before";

/// Sends bytes to the server.
fn send<S: Write>(bytes: &[u8], socket: &mut S) -> Result<(), FollowFault>
    ensures part { (count : ℕ) × Appends (S.contents socket.old) (S.contents socket.new)
        (take count bytes.now) }
    ensures ok { OnOk result (Appends (S.contents socket.old) (S.contents socket.new) bytes.now) }
{
    let (_, sent) = give(bytes, socket);
    sent.map_err(FollowFault::Connection)
}

/// Prints lines, and has them kept.
fn print_kept<W: Output>(lines: &[u8], output: &mut W) -> Result<(), FollowFault>
    ensures part { (count : ℕ) × Appends (W.contents output.old) (W.contents output.new)
        (take count lines.now) }
    ensures ok { OnOk result (Appends (W.contents output.old) (W.contents output.new) lines.now
        × (W.kept output.new ≡ W.contents output.new)) }
{
    let (_, given) = give(lines, output);
    given.map_err(FollowFault::Output)?;
    output.keep().map_err(FollowFault::Output)
}
