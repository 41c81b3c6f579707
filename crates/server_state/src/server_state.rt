//! What the connections of a hub have in common, and who waits for what.

ghost use Rattle.std.specs.Prelude.{◌≡◌};

use crate::disk::durability::Durability;
use crate::disk::keeper_place::KeeperPlace;
use crate::disk::slot_journal::SlotJournal;
use crate::fault::HubFault;
use crate::kept::log_size::LogSize;
use crate::kept::log_times::LogTimes;
use crate::kept::owned_names::OwnedNames;
use crate::kept::pool::ReaderPool;
use crate::opening::at_once::AtOnce;
use crate::opening::hub_builder::HubBuilder;
use crate::opening::settings::HubSettings;
use crate::opening::shared::{Places, Shared};
use crate::opening::system::SystemName;
use crate::streams::commit_notice::CommitNotice;
use crate::streams::spreading::Woken;
use connections::{ConnectionMailbox, Latch, SlotMonitor, Sockets, Users};
use publication::Publications;
use server::{ConnectionTerms, Dialect};
use shared_log::{LogName, LogReader};
use slots::{SlotName, SlotTable};
use std::alloc::Global;
use std::sync::atomic::{AtomicBool, AtomicU32, AtomicU64, AtomicUsize, Ordering};
use std::sync::{Condvar, Mutex, Wait};
use std::time::{Clock, Duration};
use txlog::Publisher;

/// The log and rows of a hub, its slots, its publications, and what commits and notes tell. It isn't `Drop`: `close` ends it.
pub struct ServerState<L: LogName + SlotName> {
    pub alloc: Global,
    pub publications: Publications,
    pub system: SystemName,
    pub settings: HubSettings,
    /// What sessions call, one thread at a time.
    pub publisher: Mutex<Publisher<L>>,
    pub slots: SlotTable<L>,
    pub(crate) pool: Mutex<ReaderPool<L>>,
    pub(crate) names: Mutex<OwnedNames<L>>,
    pub notice: Mutex<CommitNotice<L>>,
    /// When the log came past which position.
    pub(crate) times: Mutex<LogTimes>,
    /// One for each stream that may run.
    pub latches: Vec<Latch>,
    /// How many connections are served.
    pub(crate) served: AtomicU32,
    pub(crate) streams_begun: AtomicU64,
    no_more_streams: AtomicBool,
    /// A stream has begun, or none will.
    changed: Condvar,
    /// One for each slot that may be there at once.
    pub(crate) monitors: Vec<SlotMonitor>,
    pub sockets: Sockets,
    /// How many connections are heard out that are too many, and their sockets.
    pub(crate) crowd: AtomicU32,
    pub(crate) turned_away: Sockets,
    /// A reader that reads nothing: it finds where streams would begin. Whoever locks the publisher too locks that first.
    pub(crate) counter: Mutex<LogReader<L>>,
    /// Those that may connect by their passwords, where passwords are asked.
    pub(crate) users: Option<Mutex<Users>>,
    /// How many connections are served whose users haven't proved their passwords yet.
    pub(crate) strangers: AtomicU32,
    /// How many records the log has had when it is looked next which of them nobody needs.
    pub(crate) next_look: AtomicUsize,
    /// How long the log was when the publisher was let go last.
    pub(crate) log_size: Mutex<LogSize>,
    /// Where it is kept on a disk: how far it is there, who is to put it there, and how slots stand there.
    pub(crate) durability: Option<Durability>,
    pub(crate) keeper_place: Mutex<Option<KeeperPlace<L>>>,
    pub(crate) journal: Mutex<SlotJournal>,
}

impl<L: LogName + SlotName> ServerState<L> {
    /// An empty log and no slots; or a log that goes on by its entries, with the slots that it had. `Memory` where memory is refused,
    /// `Recovery` and `Slots` where it doesn't go on: then nothing is left of it.
    pub fn open<R: Wait>(rt: &R, opened: HubBuilder) -> Result<Self, HubFault>
        requires log { opened.log.history.seen.book ≡ L.book }
        requires slots { opened.slots.first.table_id ≡ L.table }
    {
        let HubBuilder {
            alloc,
            publications,
            system,
            log,
            slots,
            settings,
            users,
            entries,
            identity: _,
        } = opened;
        match Shared::open(rt, alloc, log, slots, AtOnce::of(&settings), entries) {
            Ok(shared) => {
                let state = ServerState::of(shared, alloc, publications, system, settings, users);
                state.begin_kept(rt);
                Ok(state)
            }
            Err(fault) => {
                drop(publications);
                drop(system);
                drop(users);
                Err(fault)
            }
        }
    }

    /// Where the log goes on by what a disk has: slots stand as there, and streams read on up to its end.
    fn begin_kept<R: Wait>(&self, rt: &R) {
        let Some(durability) = &self.durability else {
            return;
        };
        if let Ok(journal) = self.journal_now(rt) {
            *self.journal.lock(rt) = journal;
        }
        Woken::all(rt, &self.latches, durability.look(rt).end);
    }

    /// What is made of these parts, which no connection has reached yet.
    fn of(
        shared: Shared<L>,
        alloc: Global,
        publications: Publications,
        system: SystemName,
        settings: HubSettings,
        users: Option<Users>,
    ) -> Self
        ensures { (result.publications ≡ publications) × (result.system ≡ system)
            × (result.settings ≡ settings) }
    {
        let Shared {
            places,
            publisher,
            pool,
            counter,
            kept,
        } = shared;
        let durability = match &kept {
            Some(place) => Some(Durability::of(place.count, place.end)),
            None => None,
        };
        let Places {
            table,
            names,
            latches,
            monitors,
        } = places;
        let log_size = Mutex::new(LogSize::of(&publisher));
        ServerState {
            alloc,
            publications,
            system,
            settings,
            publisher: Mutex::new(publisher),
            slots: table,
            pool: Mutex::new(pool),
            names: Mutex::new(names),
            notice: Mutex::new(CommitNotice::new()),
            times: Mutex::new(LogTimes::new(alloc)),
            latches,
            served: AtomicU32::new(0),
            streams_begun: AtomicU64::new(0),
            no_more_streams: AtomicBool::new(false),
            changed: Condvar::new(),
            monitors,
            sockets: Sockets::new(alloc),
            crowd: AtomicU32::new(0),
            turned_away: Sockets::new(alloc),
            counter: Mutex::new(counter),
            users: users.map(Mutex::new),
            strangers: AtomicU32::new(0),
            next_look: AtomicUsize::new(0),
            log_size,
            durability,
            keeper_place: Mutex::new(kept),
            journal: Mutex::new(SlotJournal::new(alloc)),
        }
    }

    /// Ends the log. Transactions in progress are left as they are.
    pub fn close<R: Wait>(self, rt: &R) {
        let ServerState {
            alloc: _,
            publications: _,
            system: _,
            settings: _,
            publisher,
            slots: _,
            pool: _,
            names: _,
            notice: _,
            times: _,
            latches: _,
            served: _,
            streams_begun: _,
            no_more_streams: _,
            changed: _,
            monitors: _,
            sockets: _,
            crowd: _,
            turned_away: _,
            counter: _,
            users: _,
            strangers: _,
            next_look: _,
            log_size: _,
            durability: _,
            keeper_place: _,
            journal: _,
        } = self;
        publisher.into_inner().close(rt);
    }

    /// How the connection of this number is served.
    pub fn service(&self, number: u32) -> ConnectionTerms {
        let dialect = if self.settings.answers_postgresql {
            Dialect::Questions
        } else {
            Dialect::Commands
        };
        ConnectionTerms { number, dialect }
    }

    /// For how long a read of a connection waits: half of the time for which the client of a stream may be silent. None: for ever.
    pub fn silence(&self) -> Option<Duration> {
        if self.settings.wal_sender_timeout.is_zero() {
            return None;
        }
        Some(self.settings.wal_sender_timeout / 2)
    }

    /// For how long a write of a connection waits whose client takes nothing. None: for ever.
    pub fn stalling(&self) -> Option<Duration> {
        if self.settings.wal_sender_timeout.is_zero() {
            return None;
        }
        Some(self.settings.wal_sender_timeout)
    }

    /// By when on this clock a connection that begins now has to have said its startup. None: it may take for ever, or the clock
    /// can't be read.
    pub fn startup_until<R: Clock>(&self, rt: &R) -> Option<Duration> {
        if self.settings.authentication_timeout.is_zero() {
            return None;
        }
        rt.monotonic()
            .ok()?
            .checked_add(self.settings.authentication_timeout)
    }

    /// One more connection is served, unless as many are as may be at once.
    pub fn admit(&self) -> bool {
        let before = self.served.fetch_add(1, Ordering::SeqCst);
        if self.settings.max_connections <= before {
            self.dismiss();
            return false;
        }
        true
    }

    /// Whether one more connection is taken after so many that were served.
    pub fn takes_more(&self, served: u32) -> bool {
        let is_enough = self.settings.connections.is_some_and(|most| most <= served);
        !is_enough && !self.is_ending()
    }

    /// A connection is served no more.
    pub fn dismiss(&self) {
        self.served.fetch_sub(1, Ordering::SeqCst);
    }

    // ---- what threads wait for

    /// The connection of the stream with this latch has something to do.
    pub fn tell_work<R: Wait>(&self, rt: &R, latch: usize) {
        if let Some(latch) = self.latches.get(latch) {
            latch.tell_work(rt);
        }
    }

    /// Waits while the stream with this latch is held on purpose, unless its connection or the server is over, or its slot was given up.
    pub fn await_release<S, R: Wait>(
        &self,
        rt: &R,
        mailbox: &ConnectionMailbox<S>,
        monitor: &SlotMonitor,
        latch: usize,
    ) {
        let Some(latch) = self.latches.get(latch) else {
            return;
        };
        for _ in rt.forever() {
            let waits = monitor.is_held(rt) && !monitor.is_lost(rt);
            if !waits || mailbox.is_closed(rt) || self.is_ending() {
                break;
            }
            latch.wait_for_work(rt);
        }
    }

    /// One more stream has begun.
    pub fn count_stream<R: Wait>(&self, rt: &R) {
        self.streams_begun.fetch_add(1, Ordering::SeqCst);
        self.signal(rt);
    }

    /// Wakes those that wait for streams to begin. Whoever looked before waits by now, since it looks under the lock.
    fn signal<R: Wait>(&self, rt: &R) {
        drop(self.notice.lock(rt));
        self.changed.notify_all();
    }

    /// Waits until so many streams have begun since the hub was opened, or `end_awaiting` was called. What is committed then
    /// reaches those streams.
    pub fn await_streams<R: Wait>(&self, rt: &R, count: u64) {
        drop(
            self.changed.wait_while(rt, self.notice.lock(rt), |_| {
                self.streams_begun.load(Ordering::SeqCst) < count
                    && !self.no_more_streams.load(Ordering::SeqCst)
            }),
        );
    }

    /// Nobody awaits streams from now on, since no more connections come.
    pub fn end_awaiting<R: Wait>(&self, rt: &R) {
        self.no_more_streams.store(true, Ordering::SeqCst);
        self.signal(rt);
    }
}
