//! The words of a command line that was read, and those among them that are numbers.

use crate::options::command_fault::{CommandFault, NumberFault};
use crate::options::sizes::chunks_of;
use crate::options::times::timeout_of;
use crate::standard_error::level::Level;
use command_line::{address_of, count_of};
use std::net::SocketAddr;
use std::time::Duration;

/// The most connections that one run serves.
const MOST_CONNECTIONS: u32 = 1000;

/// The most slots that there can be at once, and the most streams.
const MOST_SLOTS: u32 = 1024;

/// In the place of their number for a server that goes on: with a connection each second it lasts for 136 years.
const FOREVER: &str = "forever";

/// What the program is asked to serve.
#[derive(Drop)]
pub struct Words<'a> {
    pub config: &'a str,
    pub(crate) address: &'a str,
    pub(crate) connections: &'a str,
    pub(crate) awaited: Option<&'a str>,
    pub(crate) silence: Option<&'a str>,
    pub(crate) startup: Option<&'a str>,
    pub(crate) at_once: Option<&'a str>,
    pub(crate) slots: Option<&'a str>,
    pub(crate) senders: Option<&'a str>,
    pub(crate) slot_keep: Option<&'a str>,
    pub(crate) work_memory: Option<&'a str>,
    pub(crate) messages: Option<&'a str>,
    pub(crate) status: Option<&'a str>,
    pub(crate) answers_postgresql: bool,
    pub(crate) allows_start_ahead: bool,
    pub(crate) keeps_serving: bool,
    pub(crate) ends_on_sigterm: bool,
    /// The file of those that may connect, where not everyone may.
    pub passwords: Option<&'a str>,
    /// Of whom a password is read, and nothing is served.
    pub password_of: Option<&'a str>,
    /// The folder in which the log is kept.
    pub data: Option<&'a str>,
    pub(crate) synchronous_commit: Option<&'a str>,
    /// Which folder is printed, and nothing is served.
    pub inspected: Option<&'a str>,
    pub scripts: Vec<&'a str>,
}

/// Where it listens, for connections and for who asks what runs, how many connections it serves, how many streams the scripts await, how much it tells, its limits where
/// they are told: for how long a stream's client may be silent, how long a startup may take, how many connections are served
/// at once, and how many slots there may be; whether PostgreSQL's own clients are answered, and whether a stream may start ahead of its slot.
#[derive(Clone, Copy)]
pub struct Numbers {
    pub address: SocketAddr,
    pub status: Option<SocketAddr>,
    pub connections: Option<u32>,
    pub awaited: u64,
    pub level: Level,
    pub wal_sender_timeout: Option<Duration>,
    pub authentication_timeout: Option<Duration>,
    pub max_connections: Option<u32>,
    pub max_replication_slots: Option<u32>,
    pub max_wal_senders: Option<u32>,
    /// How many records a slot may hold before it is given up.
    pub max_slot_keep: Option<usize>,
    /// The chunks of each stream, where not the configuration tells them.
    pub chunks: Option<u32>,
    pub answers_postgresql: bool,
    pub allows_start_ahead: bool,
    /// Whether the end of the standard input is that of the server, where lines come from there.
    pub ends_with_input: bool,
    pub ends_on_sigterm: bool,
    pub synchronous_commit: bool,
}

impl<'a> Words<'a> {
    /// The words that are numbers. `Words` where the address is none, else `Number` at the first word that is no such number.
    pub fn numbers(&self) -> Result<Numbers, CommandFault> {
        let address = address_of(self.address)?;
        Ok(self.numbers_at(address)?)
    }

    fn numbers_at(&self, address: SocketAddr) -> Result<Numbers, NumberFault> {
        Ok(Numbers {
            address,
            status: self.status()?,
            connections: self.connections()?,
            awaited: self.awaited()?,
            level: self.level()?,
            wal_sender_timeout: self.wal_sender_timeout()?,
            authentication_timeout: self.authentication_timeout()?,
            max_connections: self.max_connections()?,
            max_replication_slots: self.max_replication_slots()?,
            max_wal_senders: self.max_wal_senders()?,
            max_slot_keep: self.max_slot_keep()?,
            chunks: self.chunks()?,
            answers_postgresql: self.answers_postgresql,
            allows_start_ahead: self.allows_start_ahead,
            ends_with_input: self.connections == FOREVER && !self.keeps_serving,
            ends_on_sigterm: self.ends_on_sigterm,
            synchronous_commit: self.synchronous_commit()?,
        })
    }

    fn status(&self) -> Result<Option<SocketAddr>, NumberFault> {
        let Some(text) = self.status else {
            return Ok(None);
        };
        match address_of(text) {
            Ok(address) => Ok(Some(address)),
            Err(_) => Err(NumberFault::StatusAddress),
        }
    }

    /// None: for ever.
    fn connections(&self) -> Result<Option<u32>, NumberFault> {
        if self.connections == FOREVER {
            return Ok(None);
        }
        match count_of(self.connections) {
            Some(count) if count <= MOST_CONNECTIONS => Ok(Some(count)),
            _ => Err(NumberFault::Connections),
        }
    }

    fn awaited(&self) -> Result<u64, NumberFault> {
        let Some(count) = self.awaited else {
            return Ok(0);
        };
        match count_of(count) {
            Some(count) => Ok(u64::from(count)),
            None => Err(NumberFault::Awaited),
        }
    }

    fn level(&self) -> Result<Level, NumberFault> {
        match self.messages {
            Some(text) => Level::of(text).ok_or(NumberFault::Level),
            None => Ok(Level::Warning),
        }
    }

    fn wal_sender_timeout(&self) -> Result<Option<Duration>, NumberFault> {
        match self.silence {
            Some(text) => timeout_of(text).ok_or(NumberFault::Silence).map(Some),
            None => Ok(None),
        }
    }

    fn authentication_timeout(&self) -> Result<Option<Duration>, NumberFault> {
        match self.startup {
            Some(text) => timeout_of(text).ok_or(NumberFault::Startup).map(Some),
            None => Ok(None),
        }
    }

    fn max_connections(&self) -> Result<Option<u32>, NumberFault> {
        let Some(text) = self.at_once else {
            return Ok(None);
        };
        match count_of(text) {
            Some(count) if 1 <= count => Ok(Some(count)),
            _ => Err(NumberFault::AtOnce),
        }
    }

    fn max_replication_slots(&self) -> Result<Option<u32>, NumberFault> {
        let Some(text) = self.slots else {
            return Ok(None);
        };
        match count_of(text) {
            Some(count) if 1 <= count && count <= MOST_SLOTS => Ok(Some(count)),
            _ => Err(NumberFault::Slots),
        }
    }

    fn max_wal_senders(&self) -> Result<Option<u32>, NumberFault> {
        let Some(text) = self.senders else {
            return Ok(None);
        };
        match count_of(text) {
            Some(count) if 1 <= count && count <= MOST_SLOTS => Ok(Some(count)),
            _ => Err(NumberFault::Senders),
        }
    }

    fn max_slot_keep(&self) -> Result<Option<usize>, NumberFault> {
        let Some(text) = self.slot_keep else {
            return Ok(None);
        };
        match count_of(text) {
            Some(count) if 1 <= count => Ok(Some(count as usize)),
            _ => Err(NumberFault::SlotKeep),
        }
    }

    fn synchronous_commit(&self) -> Result<bool, NumberFault> {
        match self.synchronous_commit {
            None | Some("on") => Ok(true),
            Some("off") => Ok(false),
            Some(_) => Err(NumberFault::SynchronousCommit),
        }
    }

    fn chunks(&self) -> Result<Option<u32>, NumberFault> {
        match self.work_memory {
            Some(text) => chunks_of(text).ok_or(NumberFault::WorkMemory).map(Some),
            None => Ok(None),
        }
    }
}
