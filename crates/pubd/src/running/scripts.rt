//! The scripts that run beside the connections, each on a thread of its own.

use crate::running::ending::{ListenerHandles, end_server};
use crate::scripting::{Script, ScriptEnd, ScriptFault, run_steps};
use crate::standard_error::error_log::ErrorLog;
use hub::Hub;
use shared_log::LogName;
use slots::SlotName;
use std::sync::Wait;
use std::sync::atomic::{AtomicBool, Ordering};
use std::thread;
use std::thread::Threads;
use std::time::Clock;

/// Runs each script to its end; one whose thread can't be had runs on this one, before those after it. What ends one early is
/// told, as refused lines are, and by `early`. The line `end` of one of them ends the server.
pub fn run_all<L, R>(
    rt: &R,
    hub: &Hub<L>,
    scripts: &[Script],
    listeners: &ListenerHandles,
    told: &ErrorLog,
    early: &AtomicBool,
)
where
    L: LogName + SlotName + Send + Sync,
    R: Threads + Wait + Clock + Sync,
{
    thread::scope(thread::scope_env(), rt, |scope| {
        for script in scripts {
            let spawned = scope.spawn(move || run_one(rt, hub, script, listeners, told, early));
            if spawned.is_err() {
                run_one(rt, hub, script, listeners, told, early);
            }
        }
    });
}

fn run_one<L, R>(
    rt: &R,
    hub: &Hub<L>,
    script: &Script,
    listeners: &ListenerHandles,
    told: &ErrorLog,
    early: &AtomicBool,
)
where
    L: LogName + SlotName,
    R: Wait + Clock,
{
    let ended = run_steps(rt, hub, listeners, script, told);
    if has_ended_server(rt, script.path.as_str(), ended, told, early) {
        end_server(rt, hub, listeners);
    }
}

/// Whether a script has ended by the line `end`. One that ended before its last line is told, and by `early`.
pub fn has_ended_server<R: Wait>(
    rt: &R,
    name: &str,
    ended: Result<ScriptEnd, ScriptFault>,
    told: &ErrorLog,
    early: &AtomicBool,
) -> bool {
    match ended {
        Ok(end) => end == ScriptEnd::EndLine,
        Err(fault) => {
            told.line(rt, format_args!("pubd: {name}: {fault}"));
            early.store(true, Ordering::SeqCst);
            false
        }
    }
}
