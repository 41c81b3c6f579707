//! What a server asks and tells whoever runs it.

use crate::fault::{AcceptError, ConnectionEnd};
use crate::refused_command::RefusedCommand;
use std::net::SocketAddr;

/// What each command of a connection passes, in the connection's reading thread, before it is answered. Connections and the
/// commands of each are counted from 1; the greatest number stays.
pub trait ServerObserver {
    fn before(&self, connection: u32, command: u32);

    /// A connection could not be taken, and the next is. From where it came is told where that is known.
    fn not_accepted(&self, _from: Option<SocketAddr>, _why: &AcceptError) {}

    /// A connection is served, which came from there.
    fn begun(&self, _connection: u32, _from: Option<SocketAddr>) {}

    /// A command of a connection was refused.
    fn refused(&self, _connection: u32, _what: &RefusedCommand<'_>) {}

    /// Transactions in progress have filled nine tenths of the chunks of a connection's stream: so many of so many are free.
    fn short_of_chunks(&self, _connection: u32, _free: usize, _chunks: u32) {}

    /// A connection that was served has ended.
    fn ended(&self, _connection: u32, _why: ConnectionEnd) {}
}

/// An observer that holds nothing, and to which nothing is told.
pub struct NoopObserver;

impl ServerObserver for NoopObserver {
    fn before(&self, _connection: u32, _command: u32) {}
}
