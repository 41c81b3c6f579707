//! How much is told of the clients at one address, so that none of them fills the standard error.

use std::alloc::Global;
use std::net::{IpAddr, SocketAddr};
use std::time::Duration;

/// How many lines of an address are told within a minute.
const MOST_LINES: u32 = 1000;

/// For how many seconds lines of an address are counted together.
const MINUTE: u64 = 60;

/// How many addresses are told apart. Of more the one is forgotten that was told of first.
const MOST_ADDRESSES: usize = 256;

/// Who is at which address, and how much was told of each.
#[derive(Drop)]
pub struct ToldClients {
    clients: Vec<Client>,
    addresses: Vec<Spoken>,
}

/// The client of a connection that is served.
#[derive(Clone, Copy, Drop)]
struct Client {
    connection: u32,
    address: IpAddr,
    /// How many of its commands were refused.
    refusals: u32,
}

/// What was told of an address within a minute.
#[derive(Clone, Copy, Drop)]
struct Spoken {
    address: IpAddr,
    /// When the minute began, on the clock.
    since: Duration,
    lines: u32,
}

/// What becomes of a line.
#[derive(Clone, Copy, Drop)]
pub enum Turn {
    Told,
    /// It is the first of its address that isn't told any more.
    TooMany(IpAddr),
    Untold,
}

impl ToldClients {
    pub fn new(alloc: Global) -> Self {
        ToldClients {
            clients: Vec::new(alloc),
            addresses: Vec::new(alloc),
        }
    }

    /// A connection is served, from this address. One that there is no memory for is of none.
    pub fn begin(&mut self, connection: u32, from: SocketAddr) {
        let _ = self.clients.push(Client {
            connection,
            address: from.ip(),
            refusals: 0,
        });
    }

    /// A connection is served no more. It answers its address, where that is known.
    pub fn end(&mut self, connection: u32) -> Option<IpAddr> {
        let address = self.address_of(connection);
        self.clients
            .retain(|client| client.connection != connection);
        address
    }

    /// The address of a connection that is served. None: there was no memory to keep it.
    pub fn address_of(&self, connection: u32) -> Option<IpAddr> {
        for client in &self.clients {
            if client.connection == connection {
                return Some(client.address);
            }
        }
        None
    }

    /// Counts one more refusal of a connection, and answers how many there are.
    pub fn count_refusal(&mut self, connection: u32) -> u32 {
        for client in self.clients.iter_mut() {
            if client.connection == connection {
                client.refusals = client.refusals.saturating_add(1);
                return client.refusals;
            }
        }
        1
    }

    /// What becomes of a line of this address at this time on the clock.
    pub fn turn(&mut self, address: IpAddr, now: Duration) -> Turn {
        let lines = self.count_line(address, now);
        if lines <= MOST_LINES {
            Turn::Told
        } else if lines == MOST_LINES + 1 {
            Turn::TooMany(address)
        } else {
            Turn::Untold
        }
    }

    /// Counts one more line of an address, and answers how many were in its minute.
    fn count_line(&mut self, address: IpAddr, now: Duration) -> u32 {
        for spoken in self.addresses.iter_mut() {
            if spoken.address == address {
                if Duration::from_secs(MINUTE) <= now.saturating_sub(spoken.since) {
                    spoken.since = now;
                    spoken.lines = 0;
                }
                spoken.lines = spoken.lines.saturating_add(1);
                return spoken.lines;
            }
        }
        self.add(address, now);
        1
    }

    fn add(&mut self, address: IpAddr, now: Duration) {
        if MOST_ADDRESSES <= self.addresses.len() {
            let _ = self.addresses.remove(0);
        }
        let _ = self.addresses.push(Spoken {
            address,
            since: now,
            lines: 1,
        });
    }
}
