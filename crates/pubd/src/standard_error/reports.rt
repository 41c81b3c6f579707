//! What the server tells beside its clients.

use crate::standard_error::error_log::ErrorLog;
use crate::standard_error::level::Level;
use crate::standard_error::questions::Questions;
use crate::standard_error::told_clients::{ToldClients, Turn};
use hub::{AcceptError, ConnectionEnd, RefusedCommand, ServerObserver};
use std::alloc::Global;
use std::fmt::Display;
use std::net::{IpAddr, SocketAddr};
use std::sync::{Mutex, Wait};
use std::time::{Clock, Duration};

/// How many refusals of a connection are told.
const MOST_REFUSALS: u32 = 20;

/// Whether it is told at this level that a connection has ended so.
fn is_told(level: Level, end: ConnectionEnd) -> bool {
    match level {
        Level::Info => true,
        Level::Warning => end != ConnectionEnd::Client,
        Level::Error => false,
    }
}

/// Holds no command, and tells which connections could not be taken, what was refused, and how others have ended; of the clients at one
/// address no more than a thousand lines a minute.
#[derive(Drop)]
pub struct Reports<'e, R: Wait + Clock> {
    rt: &'e R,
    told: &'e ErrorLog,
    level: Level,
    talk: Mutex<ToldClients>,
    questions: Questions,
}

impl<'e, R: Wait + Clock> Reports<'e, R> {
    pub fn new(rt: &'e R, alloc: Global, told: &'e ErrorLog, level: Level) -> Self {
        Reports {
            rt,
            told,
            level,
            talk: Mutex::new(ToldClients::new(alloc)),
            questions: Questions::new(),
        }
    }
}

impl<'e, R: Wait + Clock> ServerObserver for Reports<'e, R> {
    fn before(&self, _connection: u32, _command: u32) {}

    fn not_accepted(&self, from: Option<SocketAddr>, why: &AcceptError) {
        let address = from.map(|from| from.ip());
        self.say(address, format_args!("pubd: {why}"));
    }

    fn begun(&self, connection: u32, from: Option<SocketAddr>) {
        let Some(from) = from else {
            return;
        };
        self.talk.lock(self.rt).begin(connection, from);
        if self.level == Level::Info {
            self.tell(
                connection,
                format_args!("pubd: connection {connection} from {from}"),
            );
        }
    }

    fn refused(&self, connection: u32, what: &RefusedCommand<'_>) {
        if self.level == Level::Error || !self.questions.is_due(what) {
            return;
        }
        let count = self.talk.lock(self.rt).count_refusal(connection);
        if count <= MOST_REFUSALS {
            self.tell_refusal(connection, what);
        } else if count == MOST_REFUSALS + 1 {
            self.tell(
                connection,
                format_args!("pubd: connection {connection}: further refusals are not told"),
            );
        }
    }

    fn short_of_chunks(&self, connection: u32, free: usize, chunks: u32) {
        if self.level != Level::Error {
            self.tell(
                connection,
                format_args!(
                    "pubd: connection {connection}: {free} of its stream's {chunks} chunks are free: transactions in progress fill the others"
                ),
            );
        }
    }

    // What prints takes 3,400 bytes of stack, and so would each connection, from its beginning on.
    #[inline(never)]
    fn ended(&self, connection: u32, why: ConnectionEnd) {
        let address = self.talk.lock(self.rt).end(connection);
        if is_told(self.level, why) {
            self.say(address, format_args!("pubd: connection {connection} {why}"));
        }
    }
}

impl<'e, R: Wait + Clock> Reports<'e, R> {
    /// Tells a line of a connection.
    fn tell<D: Display + Drop>(&self, connection: u32, line: D) {
        let address = self.talk.lock(self.rt).address_of(connection);
        self.say(address, line);
    }

    /// Tells a line of a client at this address, unless too many were told of it.
    fn say<D: Display + Drop>(&self, address: Option<IpAddr>, line: D) {
        match self.turn(address) {
            Turn::Told => self.told.line(self.rt, line),
            Turn::TooMany(address) => self.told.line(
                self.rt,
                format_args!(
                    "pubd: further lines of clients at {address} are not told for a minute"
                ),
            ),
            Turn::Untold => {}
        }
    }

    fn turn(&self, address: Option<IpAddr>) -> Turn {
        let Some(address) = address else {
            return Turn::Told;
        };
        let now = self.rt.monotonic().unwrap_or(Duration::from_secs(0));
        self.talk.lock(self.rt).turn(address, now)
    }

    fn tell_refusal(&self, connection: u32, what: &RefusedCommand<'_>) {
        match self.level {
            Level::Error => {}
            Level::Warning => self.tell_shortly(connection, what),
            Level::Info => self.tell_whole(connection, what),
        }
    }

    fn tell_whole(&self, connection: u32, what: &RefusedCommand<'_>) {
        self.tell(
            connection,
            format_args!("pubd: connection {connection}: {what}"),
        );
    }

    /// Without what the client wrote, but for the name of a slot.
    fn tell_shortly(&self, connection: u32, what: &RefusedCommand<'_>) {
        match what {
            RefusedCommand::OfSlot(_, _, _) => self.tell_whole(connection, what),
            RefusedCommand::Start(slot, _, fault) => self.tell(
                connection,
                format_args!(
                    "pubd: connection {connection}: START_REPLICATION of slot {slot}: {fault}"
                ),
            ),
            RefusedCommand::Text(_, fault) => self.tell(
                connection,
                format_args!("pubd: connection {connection}: {fault}"),
            ),
        }
    }
}
