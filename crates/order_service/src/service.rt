//! A service that publishes what it does: a thread of its own takes orders and commits them, connections are served beside it,
//! and two followers read what it publishes. It prints what they got.

use crate::following::{Followed, follow_both};
use crate::ordering::Orders;
use crate::shop::CONFIGURATION;
use anyhow::Result;
use hub::{HubBuilder, with_hub};
use std::alloc::Global;
use std::io::Print;
use std::net::{Net, TcpListener, TcpStream};
use std::random::RandomSource;
use std::sync::Wait;
use std::thread;
use std::thread::Threads;
use std::time::Clock;

pub fn follow_orders<R>(rt: &R, alloc: Global) -> Result<()>
where
    R: Net<Listener = TcpListener, Stream = TcpStream>
        + Threads
        + Wait
        + Clock
        + RandomSource
        + Print
        + Sync,
{
    let listener = TcpListener::bind(rt, "127.0.0.1:0")?;
    let address = listener.local_addr()?;
    let builder = HubBuilder::from_toml(alloc, "shop", CONFIGURATION, 1000)?;
    let (followed, taken) = thread::join(
        rt,
        || follow_both(rt, alloc, address),
        || with_hub(rt, listener, builder, Orders {}),
    );
    taken??;
    print_both(rt, &followed?)
}

fn print_both<R: Print>(rt: &R, followed: &Followed) -> Result<()> {
    println!(rt; "all tables:")?;
    print!(rt; "{}", str::from_utf8(followed.all.as_slice())?)?;
    println!(rt; "large orders:")?;
    print!(rt; "{}", str::from_utf8(followed.large.as_slice())?)?;
    Ok(())
}
