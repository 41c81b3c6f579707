//! What a listener gives, and why it gives nothing.

use libc::net;
use std::net::{TcpListener, TcpStream};
use std::os::fd::AsRawFd;
use std::time::{Clock, Duration};
use std::{io, thread};

/// For how many milliseconds a listener rests that can't give a connection for now, as PostgreSQL's does.
const REST: u64 = 100;

// Linux's numbers of the faults for which a listener gives no connection any more.
const EBADF: i32 = 9;

const EFAULT: i32 = 14;

const EINVAL: i32 = 22;

const ENOTSOCK: i32 = 88;

const EOPNOTSUPP: i32 = 95;

/// The next connection. It sends what is written at once, a read that waits for so long gives up, and so does a write of which its
/// client takes nothing for so long. The system's error where none comes, or one that can't be set so.
pub fn next_socket(
    listener: &TcpListener,
    silence: Option<Duration>,
    stalling: Option<Duration>,
) -> io::Result<TcpStream> {
    let (socket, _) = listener.accept()?;
    socket.set_nodelay(true)?;
    socket.set_read_timeout(silence)?;
    socket.set_write_timeout(stalling)?;
    keep_alive(&socket);
    Ok(socket)
}

/// Has the system ask a client that says nothing whether it is there still: after two hours, unless the system is told otherwise
/// (tcp(7)), as PostgreSQL does (PostgreSQL 15, 20.3). Where it can't be had, the connection is served all the same.
fn keep_alive(socket: &TcpStream) {
    let mut on = [0; 16];
    on[0] = 1;
    let length = 4;
    let _ = unsafe {
        net::setsockopt(
            socket.as_raw_fd(),
            net::SOL_SOCKET,
            net::SO_KEEPALIVE,
            &on,
            length,
        )
    };
}

/// Lets a listener rest.
pub fn rest<R: Clock>(rt: &R) {
    thread::sleep(rt, Duration::from_millis(REST));
}

/// Whether the fault is the listener's own. All others come of a client that has gone, or of want of memory or descriptors.
pub fn is_of_listener(fault: &io::Error) -> bool {
    matches!(
        fault.raw_os_error(),
        Some(EBADF | EFAULT | EINVAL | ENOTSOCK | EOPNOTSUPP)
    )
}
