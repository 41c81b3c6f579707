//! What `pubd` asks of the machine that it runs on.

use std::net::{Net, TcpListener, TcpStream};
use std::random::RandomSource;
use std::sync::Wait;
use std::thread::Threads;
use std::time::Clock;

/// What each thread has a copy of, for as long as it runs.
pub(crate) trait SharedHost: Copy + Send + Sync + 'static {}

impl<R> SharedHost for R
where
    R: Copy + Send + Sync + 'static,
{}

/// Sockets, threads that outlive their caller, locks, the time, randomness and the standard error.
pub(crate) trait Host: Net<Listener = TcpListener, Stream = TcpStream>
    + Threads
    + Wait
    + Clock
    + RandomSource
    + Eprint
    + SharedHost {}

impl<R> Host for R
where
    R: Net<Listener = TcpListener, Stream = TcpStream>
        + Threads
        + Wait
        + Clock
        + RandomSource
        + Eprint
        + SharedHost,
{}
