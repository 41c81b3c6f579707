//! A cache of the rows that a publisher publishes: `cache_service ADDR SLOT PUBLICATIONS COUNT` follows a slot of its own, over lost
//! connections, until COUNT transactions are applied. Then it prints each row, by table and key.
//!
//! Read `cache.rt`, `following.rt`. It uses the contract of `follower`'s loop: each transaction is handed out once, and acknowledged
//! when it is applied.
#![tactic(auto)]

mod cache;
mod following;

use anyhow::{Context, Result, bail};
use cache::Cache;
use command_line::{address_of, arguments_of, count_of};
use follower::Options;
use following::follow;
use std::alloc::Global;
use std::io::Print;
use std::net::{Net, TcpListener, TcpStream};
use std::random::RandomSource;
use std::sync::Wait;
use std::time::Clock;

fn main(rt: HostRuntime) -> Result<()> {
    let words = arguments_of(&rt)?;
    keep_cache(&rt, rt.alloc(), words.as_slice())
}

fn keep_cache<R>(rt: &R, alloc: Global, words: &[String]) -> Result<()>
where
    R: Net<Listener = TcpListener, Stream = TcpStream> + Wait + Clock + RandomSource + Print,
{
    let [_, address, slot, publications, count] = words else {
        bail!("usage: cache_service ADDR SLOT PUBLICATIONS COUNT");
    };
    let mut options = Options::new(slot.as_str(), publications.as_str());
    options.count = count_of(count.as_str()).context("COUNT is a number without a sign")?;
    let mut cache = Cache::new(alloc);
    follow(rt, address_of(address.as_str())?, &options, &mut cache)?;
    cache.print(rt)
}
