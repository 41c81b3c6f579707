//! Calls that take no memory: `without-memory PART made|called` makes what the calls of a part work on, and at `called` makes each
//! of them then. From the first of them on all memory may be refused to it, and they do what they do else (`tests/memory/refused`).

mod changes;
mod judged;
mod log;
mod places;
mod strands;
mod wire;

use crate::uses::own_log::{LogTask, work_on_log};
use anyhow::{Result, bail, ensure};
pub use log::call_of_log;
use std::alloc::Global;
use std::io::Print;
use std::sync::Wait;

pub fn call_without_memory<R: Wait + Print>(rt: &R, alloc: Global, words: &[String]) -> Result<()> {
    let [part, work] = words else {
        bail!("without-memory PART made|called");
    };
    let is_called = match work.as_str() {
        "made" => false,
        "called" => true,
        work => bail!("no work is called {work}"),
    };
    match part.as_str() {
        "arena" => strands::work(alloc, is_called),
        "store" => changes::work(alloc, is_called),
        "slots" => places::work(alloc, is_called),
        "log" => work_on_log(rt, alloc, 100, &LogTask::Call(is_called)),
        "wire" => wire::work(alloc, is_called),
        "filter" => judged::judge(alloc, is_called),
        "message" => judged::put(alloc, is_called),
        part => bail!("no part is called {part}"),
    }
}

/// What it says where calls don't answer as they should.
fn answered(is_right: bool, otherwise: &'static str) -> Result<()> {
    ensure!(is_right, "{otherwise}");
    Ok(())
}
