//! The threads that run for as long as the process: they tell, read the standard input, and look for a signal.

use crate::fault::Fault;
use crate::running::termination::{SIGNALS, Termination, blocks_signal, watch_signals};
use crate::scripting::{InputLines, read_input};
use crate::standard_error::error_log::{ErrorLog, write_told};
use std::alloc::{AllocError, Global};
use std::fs::File;
use std::io::Stdin;
use std::sync::{Arc, Wait};
use std::thread;
use std::thread::Threads;
use std::time::Clock;

/// What is told goes to the standard error by a thread of its own. Nobody joins that: it may wait for whoever reads it.
pub(crate) fn begin_telling<R>(
    host: &R,
    alloc: Global,
    places: usize,
) -> Result<Arc<ErrorLog, Global>, AllocError>
where
    R: Threads + Wait + Eprint + Copy + Send + 'static,
{
    let told = Arc::new(alloc, ErrorLog::new(alloc, places))?;
    let theirs = Arc::try_clone(&told)?;
    let rt = *host;
    thread::spawn(host, move || write_told(&rt, &theirs))?;
    Ok(told)
}

/// The standard input is read by a thread of its own. Nobody joins that: it may wait for whoever writes it.
pub(crate) fn begin_reading<R>(
    host: &R,
    from: Stdin,
    input: &Arc<InputLines, Global>,
) -> Result<(), AllocError>
where
    R: Threads + Wait + Copy + Send + 'static,
{
    let theirs = Arc::try_clone(input)?;
    let rt = *host;
    thread::spawn(host, move || read_input(&rt, from, &theirs))?;
    Ok(())
}

/// The signal is looked for by a thread of its own. Nobody joins that: it sleeps between two looks.
pub(crate) fn begin_watching<R>(
    rt: &HostRuntime,
    host: &R,
    termination: &Arc<Termination, Global>,
) -> Result<(), Fault>
where
    R: Threads + Wait + Clock + Copy + Send + 'static,
{
    let signals = File::open(rt, SIGNALS).map_err(Fault::Signals)?;
    if !blocks_signal(&signals).map_err(Fault::Signals)? {
        return Err(Fault::SignalNotBlocked);
    }
    Ok(spawn_watch(host, signals, termination)?)
}

fn spawn_watch<R>(
    host: &R,
    signals: File,
    termination: &Arc<Termination, Global>,
) -> Result<(), AllocError>
where
    R: Threads + Wait + Clock + Copy + Send + 'static,
{
    let theirs = Arc::try_clone(termination)?;
    let rt = *host;
    thread::spawn(host, move || watch_signals(&rt, &signals, &theirs))?;
    Ok(())
}
