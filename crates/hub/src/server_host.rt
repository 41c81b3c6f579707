//! What a server asks of the machine that it runs on.

use std::net::{Net, TcpListener, TcpStream};
use std::random::RandomSource;
use std::sync::Wait;
use std::thread::Threads;
use std::time::Clock;

/// Sockets, threads, locks, the time and randomness, for whoever serves connections. Each runtime that gives these is one.
pub trait ServerHost: Net<Listener = TcpListener, Stream = TcpStream>
    + Threads
    + Wait
    + Clock
    + RandomSource
    + Sync {}

impl<R> ServerHost for R
where
    R: Net<Listener = TcpListener, Stream = TcpStream>
        + Threads
        + Wait
        + Clock
        + RandomSource
        + Sync,
{}
