//! A socket to a server.

use crate::fault::FollowFault;
use crate::follower_host::FollowerHost;
use std::net::{SocketAddr, TcpStream};
use std::time::Duration;

/// For how many seconds a read waits. Then the server is asked whether it is there, and after as many more it is lost, as
/// PostgreSQL's wal_receiver_timeout has it unless it is set (PostgreSQL 15, 20.6.3).
const PATIENCE: u64 = 30;

/// Connects to a server, so that a read gives up after 30 seconds. `Connection` (K6) where that fails.
pub fn connect<R: FollowerHost>(rt: &R, address: SocketAddr) -> Result<TcpStream, FollowFault> {
    let socket = TcpStream::connect(rt, address).map_err(FollowFault::Connection)?;
    let limited = socket.set_read_timeout(Some(Duration::from_secs(PATIENCE)));
    limited.map_err(FollowFault::Connection)?;
    Ok(socket)
}
