//! A service that commits for as long as it is told to, to see what a hub's memory comes to.

use crate::uses::items::CONFIGURATION;
use crate::uses::number;
use anyhow::{Error, Result, ensure};
use hub::{Hub, HubBuilder, HubName, Service, Transaction, field, with_hub};
use std::alloc::Global;
use std::io::Print;
use std::net::{Net, TcpListener, TcpStream};
use std::random::RandomSource;
use std::sync::Wait;
use std::thread::Threads;
use std::time::{Clock, Duration};

/// Room for so many records has the log.
const RECORDS: usize = 65_536;

/// After so many commits it is awaited that all slots have confirmed them.
const BATCH: u32 = 10_000;

/// So many times that is a million.
const BATCHES: u32 = 100;

/// For so many seconds at most.
const PATIENCE: u64 = 60;

const SLOTS: [&str; 2] = ["first", "second"];

/// Prints where it listens, awaits a stream of each of the slots `first` and `second`, and commits so many million transactions of
/// one change: a row is inserted, and deleted again by the next. After each million it prints how many they are, and where the log ends.
pub fn commit_on_and_on<R>(rt: &R, alloc: Global, words: &[String]) -> Result<()>
where
    R: Net<Listener = TcpListener, Stream = TcpStream>
        + Threads
        + Wait
        + Clock
        + RandomSource
        + Print
        + Sync,
{
    let [millions] = words else {
        return Err(Error::msg("endless MILLIONS"));
    };
    let millions = number(millions)?;
    let listener = TcpListener::bind(rt, "127.0.0.1:0")?;
    let address = listener.local_addr()?;
    println!(rt; "{address}")?;
    let builder = HubBuilder::from_toml(alloc, "endless", CONFIGURATION, RECORDS)?;
    with_hub(
        rt,
        listener,
        builder,
        Endless {
            output: rt,
            millions,
        },
    )?
}

#[derive(Drop)]
struct Endless<'a, P> {
    output: &'a P,
    millions: u32,
}

impl<P: Print> Service for Endless<'_, P> {
    type Output = Result<()>;

    fn run<L: HubName, R: Wait + Clock>(self, rt: &R, hub: &Hub<L>) -> Result<()> {
        hub.await_streams(rt, SLOTS.len() as u64);
        for million in 1..=self.millions {
            commit_million(rt, hub)?;
            let end = hub.status(rt)?.log_end;
            println!(self.output; "{million} {end}")?;
        }
        Ok(())
    }
}

fn commit_million<L: HubName, R: Wait + Clock>(rt: &R, hub: &Hub<L>) -> Result<()> {
    for batch in 0..BATCHES {
        commit_batch(rt, hub, batch)?;
        await_all(rt, hub)?;
    }
    Ok(())
}

/// Each batch has keys of its own, among those of a million.
fn commit_batch<L: HubName, R: Wait + Clock>(rt: &R, hub: &Hub<L>, batch: u32) -> Result<()> {
    for at in 0..BATCH {
        let key = batch.wrapping_mul(BATCH / 2).wrapping_add(at / 2);
        commit_one(rt, hub, key.cast_signed(), at % 2 == 0)?;
    }
    Ok(())
}

/// Waits until each slot has confirmed all that the log has.
fn await_all<L: HubName, R: Wait + Clock>(rt: &R, hub: &Hub<L>) -> Result<()> {
    let end = hub.status(rt)?.log_end;
    for slot in SLOTS {
        let is_there = hub.await_confirmed(rt, slot, end, Duration::from_secs(PATIENCE))?;
        ensure!(is_there, "a slot lags");
    }
    Ok(())
}

fn commit_one<L: HubName, R: Wait + Clock>(
    rt: &R,
    hub: &Hub<L>,
    key: i32,
    is_new: bool,
) -> Result<()> {
    let mut tx = hub.transaction(rt)?;
    let changed = change(&mut tx, key, is_new);
    tx.end(changed)
}

fn change<L: HubName, R: Wait>(
    tx: &mut Transaction<'_, L, R>,
    key: i32,
    is_new: bool,
) -> Result<()> {
    let id = field("id", key);
    if is_new {
        let (name, qty) = (field("name", "ab"), field("qty", 7i64));
        tx.insert("public.item", &[id, name, qty])?;
    } else {
        tx.delete("public.item", &[id])?;
    }
    Ok(())
}
