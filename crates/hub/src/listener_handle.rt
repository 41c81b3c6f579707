//! Where a listener waits, for whoever ends that.

use std::io;
use std::net::{Shutdown, SocketAddr, TcpListener, TcpStream};
use std::os::fd::OwnedFd;

/// Where a listener waits: its address, and a second handle of its socket.
#[derive(Drop)]
pub struct ListenerHandle {
    pub address: SocketAddr,
    socket: TcpStream,
}

impl ListenerHandle {
    pub fn of(listener: &TcpListener) -> io::Result<Self> {
        Ok(ListenerHandle {
            address: listener.local_addr()?,
            socket: TcpStream::from(OwnedFd::from(listener.try_clone()?)),
        })
    }

    /// No connection comes by it any more: Linux has whoever waits there see a fault of the listener.
    pub fn shut(&self) {
        let _ = self.socket.shutdown(Shutdown::Both);
    }
}
