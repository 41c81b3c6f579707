//! A loop of transactions: each is handed out once, and acknowledged when its caller says so.

ghost use Rattle.std.specs.Prelude.{◌≡◌, ◌≢◌, ◌+◌, ◌<◌, [], IfOk, IfSome, OnOk, false, length, slice_get};
ghost use Rattle.std.specs.Option.{option_map};
ghost use Rattle.std.specs.Io.KnownBytes.{Appends};
ghost use Rattle.follower.specs.Once.{Gains};
ghost use Rattle.follower.specs.Standing.{status_at};

use crate::fault::FollowFault;
use crate::library::told_tables::ToldTables;
use crate::library::transaction::Transaction;
use crate::login::asking::{ask_system, create_if_absent, greet, send, start_stream};
use crate::login::peer::Peer;
use crate::options::Options;
use crate::receiving::giving::give;
use crate::receiving::incoming::Incoming;
use crate::receiving::stream_receiver::StreamReceiver;
use crate::receiving::streamed::{body_in, carried};
use crate::resuming::judge_asked;
use client::{Applier, ClientFault};
use copyboth::{ServerBody, clock_now};
use frames::{Back, Front};
use std::alloc::Global;
use std::random::RandomSource;
use std::sync::Wait;
use std::time::Clock;

/// A slot that is followed over one connection, transaction by transaction:
///
/// ```text
/// let mut follower = Follower::new(rt, alloc, connect(rt, address)?, &Options::new("mine", "p"))?;
/// while let Some(transaction) = follower.next(rt)? {
///     for change in transaction.changes() {
///         if let Change::Insert(row) = transaction.read(change)? { .. row.int4("id") .. }
///     }
///     follower.acknowledge(rt)?;
/// }
/// ```
///
/// Where the connection is lost (`FollowFault::is_passing`), another follower goes on whose options have the system, the position up to
/// which all is done with, and no leave to create the slot: one that is created anew has lost what lies before.
#[derive(Drop)]
pub struct Follower<S> {
    alloc: Global,
    socket: S,
    incoming: Incoming,
    receiver: StreamReceiver,
    tables: ToldTables,
    /// Which system the server says it is.
    system: String,
    /// How many of those that are there were handed out.
    handed: usize,
    /// All that ends up to there is done with.
    acknowledged: u64,
    /// What the clock said last, in microseconds since 2000-01-01.
    clock: i64,
    /// Whether the server was asked for a sign of life, and nothing has come since.
    is_asked: bool,
    /// Whether the server has ended the stream.
    is_over: bool,
}

impl<S: Peer> Follower<S> {
    /// Asks for the stream of the options, which begins at their position or where the slot is confirmed further; the slot is created
    /// unless it is there, if they say so. Their count, form and send times are of no use here.
    ///
    /// `Server` (K4) is what the server refused, `Login` (K9) that a password isn't proved that it asks for, `OtherSystem` (K7) that it is
    /// another system than the options say, `Client` that it says what belongs to no answer (K1, K2) or memory is refused (K5). K6 comes
    /// where a command with these names is too long to be sent (`LongCommand`), and where the connection failed (`Connection`), fell
    /// silent (`Silent`) or ended early (`Ended`).
    pub fn new<R: Wait + RandomSource>(
        rt: &R,
        alloc: Global,
        mut socket: S,
        options: &Options<'_>,
    ) -> Result<Self, FollowFault>
    where
        S: Drop,
    {
        let mut incoming = Incoming::new(alloc);
        greet(rt, alloc, &mut incoming, &mut socket, options)?;
        let system = ask_system(rt, alloc, &mut incoming, &mut socket)?;
        judge_asked(alloc, options, system.as_str())?;
        if options.create {
            create_if_absent(rt, alloc, &mut incoming, &mut socket, options.slot)?;
        }
        let position = options.position;
        start_stream(rt, alloc, &mut incoming, &mut socket, options, position)?;
        Ok(Follower {
            alloc,
            socket,
            incoming,
            receiver: StreamReceiver::new(alloc, position, u32::MAX),
            tables: ToldTables::new(alloc),
            system,
            handed: 0,
            acknowledged: position,
            clock: 0,
            is_asked: false,
            is_over: false,
        })
    }

    /// All that ends up to there is done with: where another follower may go on.
    pub fn position(&self) -> u64
        ensures { result ≡ self.now.acknowledged }
    {
        self.acknowledged
    }

    /// Which system the server says it is. A position is of its log, and says nothing of another's.
    pub fn system(&self) -> &str {
        self.system.as_str()
    }

    /// Waits for the next transaction, or message outside of all transactions. None: the server has ended the stream, and all of it
    /// was handed out. `Connection` or `Ended` (K6) where the connection is lost, `Silent` (K6) where nothing came for twice as long as a
    /// read of the socket may wait; `Client` is a fault of an applier (K1 to K3, K5, K8).
    pub fn next<R: Wait + Clock>(
        &mut self,
        rt: &R,
    ) -> Result<Option<Transaction<'_>>, FollowFault> {
        match self.advance(rt)? {
            Some(place) => Ok(self.at(place)),
            None => Ok(None),
        }
    }

    /// Where the next one stands, which is handed out by that.
    fn advance<R: Wait + Clock>(&mut self, rt: &R) -> Result<Option<usize>, FollowFault>
        // Whatever a server sends: each transaction once, in the order of the commits.
        ensures once { Gains self.old.receiver.applier.subscriber
            self.new.receiver.applier.subscriber }
        ensures found { IfOk result (λ found. IfSome found (λ place. (place ≡ self.old.handed)
            × (self.new.handed ≡ self.old.handed + 1)
            × (place < length self.new.receiver.applier.subscriber.applied))) }
        ensures acknowledged { self.new.acknowledged ≡ self.old.acknowledged }
    {
        self.await_one(rt)?;
        let place = self.handed;
        if self.receiver.unprinted().len() <= place {
            return Ok(None);
        }
        self.handed += 1;
        Ok(Some(place))
    }

    /// The transaction at a place of those that are there.
    fn at(&self, place: usize) -> Option<Transaction<'_>>
        ensures { option_map (λ t. t.applied.now) result
            ≡ slice_get self.now.receiver.applier.subscriber.applied place }
    {
        let applied = self.receiver.unprinted().get(place)?;
        Some(Transaction {
            applied,
            tables: &self.tables,
        })
    }

    /// Takes frames until one is there that wasn't handed out.
    #[tactic(auto, using(crate::proofs::Gaining::gains_nothing, crate::proofs::Gaining::gains_then))]
    fn await_one<R: Wait + Clock>(&mut self, rt: &R) -> Result<(), FollowFault>
        ensures once { Gains self.old.receiver.applier.subscriber
            self.new.receiver.applier.subscriber }
        ensures same { (self.new.handed ≡ self.old.handed)
            × (self.new.acknowledged ≡ self.old.acknowledged) }
    {
        for _ in rt.forever() {
            if self.is_over || self.handed < self.receiver.unprinted().len() {
                break;
            }
            self.clock = clock_now(rt, self.clock);
            self.take_next()?;
        }
        Ok(())
    }

    /// Takes the frame at the front, or waits for more of it. Where nothing comes, the server is asked for a keepalive, once.
    #[tactic(auto, using(crate::proofs::Gaining::gains_nothing))]
    fn take_next(&mut self) -> Result<(), FollowFault>
        ensures once { Gains self.old.receiver.applier.subscriber
            self.new.receiver.applier.subscriber }
        ensures same { (self.new.handed ≡ self.old.handed)
            × (self.new.acknowledged ≡ self.old.acknowledged) }
    {
        if let Some((frame, length)) = self.incoming.whole()? {
            let taken = self.receiver.take(self.incoming.front(length));
            self.incoming.pass(length);
            return self.answer(frame, taken);
        }
        match self.incoming.receive_more(&mut self.socket) {
            Err(FollowFault::Silent) if !self.is_asked => {
                self.is_asked = true;
                self.tell(self.done(), true)
            }
            read => {
                self.is_asked = false;
                read
            }
        }
    }

    /// Does what a frame asks for that the receiver took so.
    fn answer(&mut self, frame: Back, taken: Result<(), ClientFault>) -> Result<(), FollowFault>
        ensures { self.new
            ≡ record self.old {
              socket = self.new.socket;
              tables = self.new.tables;
              is_over = self.new.is_over;
            } }
    {
        if matches!(frame, Back::CopyDone) {
            drop(frame);
            self.is_over = true;
            return Ok(());
        }
        let data = carried(frame, taken)?;
        match body_in(&data)? {
            ServerBody::XLogData(message) => self.tables.learn(message.payload),
            ServerBody::Keepalive(keepalive) if keepalive.ask => self.tell(self.done(), false),
            ServerBody::Keepalive(_) => Ok(()),
        }
    }

    /// The transactions that were handed out are done with: the server may forget them, and a follower that comes after this one
    /// goes on after them.
    pub fn acknowledge<R: Clock>(&mut self, rt: &R) -> Result<(), FollowFault>
        ensures done { self.old.handed ≡ length self.old.receiver.applier.subscriber.applied →
            (self.new.acknowledged ≡ self.old.receiver.applier.subscriber.position)
            × (self.new.receiver.applier.subscriber.applied ≡ []) }
        ensures waits { self.old.handed ≢ length self.old.receiver.applier.subscriber.applied →
            (self.new.acknowledged ≡ self.old.acknowledged)
            × (self.new.receiver ≡ self.old.receiver) }
        ensures told { OnOk result (Appends (S.contents self.old.socket) (S.contents self.new.socket)
            (status_at self.new.acknowledged self.new.clock false)) }
    {
        if self.handed == self.receiver.unprinted().len() {
            self.acknowledged = self.receiver.position();
            self.receiver.printed();
            self.handed = 0;
        }
        self.clock = clock_now(rt, self.clock);
        self.tell(self.acknowledged, false)
    }

    /// Ends the stream from this side, and the connection.
    pub fn end(mut self) -> Result<(), FollowFault>
    where
        S: Drop,
    {
        send(self.alloc, &mut self.socket, &Front::CopyDone)
    }

    /// All that ends up to there is done with; where nothing waits for its caller, also what was read without a transaction in it, so
    /// that the server needn't keep that.
    fn done(&self) -> u64
        ensures idle { self.now.receiver.applier.subscriber.applied ≡ [] →
            result ≡ self.now.receiver.applier.subscriber.position }
        ensures busy { self.now.receiver.applier.subscriber.applied ≢ [] →
            result ≡ self.now.acknowledged }
    {
        if self.receiver.unprinted().is_empty() {
            return self.receiver.position();
        }
        self.acknowledged
    }

    /// Tells the server how far its client is, and may ask for a keepalive.
    fn tell(&mut self, position: u64, ask: bool) -> Result<(), FollowFault>
        ensures same { self.new ≡ record self.old { socket = self.new.socket } }
        ensures ok { OnOk result (Appends (S.contents self.old.socket) (S.contents self.new.socket)
            (status_at position self.old.clock ask)) }
    {
        let status = status_of(self.alloc, position, self.clock, ask);
        let (_, given) = give(&status, &mut self.socket);
        given.map_err(FollowFault::Connection)
    }
}

/// The status that acknowledges all up to a position, under a clock.
fn status_of(alloc: Global, position: u64, clock: i64, ask: bool) -> [u8; 39]
    ensures { result ≡ status_at position clock ask }
{
    Applier::at(alloc, position).status(clock, ask)
}
