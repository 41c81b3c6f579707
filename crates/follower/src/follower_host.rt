//! What a follower asks of the machine that it runs on.

use std::net::{Net, TcpListener, TcpStream};
use std::random::RandomSource;
use std::sync::Wait;
use std::time::Clock;

/// Sockets, waiting, the time and randomness, for whoever follows over a socket. Each runtime that gives these is one.
pub trait FollowerHost: Net<Listener = TcpListener, Stream = TcpStream>
    + Wait
    + Clock
    + RandomSource {}

impl<R> FollowerHost for R
where
    R: Net<Listener = TcpListener, Stream = TcpStream> + Wait + Clock + RandomSource,
{}
