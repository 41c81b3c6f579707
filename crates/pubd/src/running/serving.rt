//! What is served, and what runs beside it: scripts, the status page, and whoever ends the server.

ghost use Rattle.std.specs.Prelude.{◌≡◌};

use crate::fault::Fault;
use crate::running::ending::{ListenerHandles, end_server};
use crate::running::scripts::{has_ended_server, run_all};
use crate::scripting::{Driven, STANDARD_INPUT, Script, run_input};
use crate::standard_error::error_log::ErrorLog;
use crate::standard_error::level::Level;
use crate::standard_error::reports::Reports;
use crate::status::status_page::serve_status;
use hub::{Hub, HubBuilder, serve};
use segments::Segment;
use shared_log::LogName;
use slots::SlotName;
use sqlite_std_file::File;
use std::alloc::AllocError;
use std::io::Print;
use std::net::TcpListener;
use std::random::RandomSource;
use std::sync::Wait;
use std::sync::atomic::{AtomicBool, Ordering};
use std::thread::Threads;
use std::time::Clock;
use std::{io, thread};

/// What is served, and what runs beside it.
#[derive(Clone, Copy)]
pub(crate) struct ServerParts<'a> {
    pub(crate) listener: &'a TcpListener,
    /// Where it is told what runs.
    pub(crate) page: Option<&'a TcpListener>,
    pub(crate) listeners: &'a ListenerHandles,
    pub(crate) awaited: u64,
    pub(crate) level: Level,
    pub(crate) scripts: &'a [Script],
    /// Whether lines come from the standard input.
    pub(crate) has_input: bool,
    /// Whether its end is that of the server.
    pub(crate) ends_with_input: bool,
    /// Whether a SIGTERM that is pending ends it in order.
    pub(crate) ends_on_sigterm: bool,
}

/// The log and the slots are named by the call. A hub must be closed, so whatever may fail stands in a call that borrows it.
pub(crate) fn served<L, R, O>(
    rt: &R,
    opened: HubBuilder,
    segment: Option<Segment<File>>,
    service: &ServerParts,
    told: &ErrorLog,
    output: &O,
) -> Result<(), Fault>
where
    L: LogName + SlotName + Send + Sync,
    R: Threads + Wait + Clock + RandomSource + Sync,
    O: Print,
    requires log { opened.log.history.seen.book ≡ L.book }
    requires slots { opened.slots.first.table_id ≡ L.table }
{
    let hub = match Hub::<L>::open(rt, opened) {
        Ok(hub) => hub,
        Err(fault) => {
            drop(segment);
            return Err(Fault::Hub(fault));
        }
    };
    let done = match segment {
        Some(segment) => serve_kept(rt, &hub, segment, service, told, output),
        None => serve_beside_all(rt, &hub, service, told, output),
    };
    hub.close(rt);
    done
}

/// Serves, and keeps the log in this segment beside that, on a thread of its own.
fn serve_kept<L, R, O>(
    rt: &R,
    hub: &Hub<L>,
    segment: Segment<File>,
    service: &ServerParts,
    told: &ErrorLog,
    output: &O,
) -> Result<(), Fault>
where
    L: LogName + SlotName + Send + Sync,
    R: Threads + Wait + Clock + RandomSource + Sync,
    O: Print,
{
    thread::scope(thread::scope_env(), rt, |scope| {
        let kept = scope.spawn(move || keep(rt, hub, segment, told));
        if !was_spawned(kept) {
            return Err(Fault::Memory(AllocError));
        }
        let done = serve_beside_all(rt, hub, service, told, output);
        hub.end_keeping(rt);
        done
    })
}

/// Keeps the log until the server has ended. Where the disk fails, it is told at once.
fn keep<L, R>(rt: &R, hub: &Hub<L>, segment: Segment<File>, told: &ErrorLog)
where
    L: LogName + SlotName,
    R: Wait + Clock,
{
    if let Err(fault) = hub.keep(rt, segment) {
        told.line(
            rt,
            format_args!(
                "pubd: commits are refused from now on, since the log's disk has failed: {fault}"
            ),
        );
    }
}

/// Serves, with its scripts and its page beside that on threads of their own. Where lines come from the standard input, they are
/// done on this thread, and connections are taken on one more.
fn serve_beside_all<L, R, O>(
    rt: &R,
    hub: &Hub<L>,
    service: &ServerParts,
    told: &ErrorLog,
    output: &O,
) -> Result<(), Fault>
where
    L: LogName + SlotName + Send + Sync,
    R: Threads + Wait + Clock + RandomSource + Sync,
    O: Print,
{
    tell_addresses(service.listeners, output).map_err(Fault::Output)?;
    let ended_early = AtomicBool::new(false);
    serve_beside(rt, hub, service, told, output, &ended_early)?;
    if ended_early.load(Ordering::SeqCst) {
        told.line(rt, format_args!("pubd: {}", Fault::EndedEarly));
        return Err(Fault::EndedEarly);
    }
    Ok(())
}

fn serve_beside<L, R, O>(
    rt: &R,
    hub: &Hub<L>,
    service: &ServerParts,
    told: &ErrorLog,
    output: &O,
    early: &AtomicBool,
) -> Result<(), AllocError>
where
    L: LogName + SlotName + Send + Sync,
    R: Threads + Wait + Clock + RandomSource + Sync,
    O: Print,
{
    thread::scope(thread::scope_env(), rt, |scope| {
        let scripted = scope.spawn(move || run_awaited(rt, hub, service, told, early));
        if !was_spawned(scripted) {
            return give_up(rt, hub, service);
        }
        if service.page.is_some() {
            let shown = scope.spawn(move || show(rt, hub, service, told));
            if !was_spawned(shown) {
                return give_up(rt, hub, service);
            }
        }
        if service.ends_on_sigterm {
            let watched = scope.spawn(move || end_when_told(rt, hub, service));
            if !was_spawned(watched) {
                return give_up(rt, hub, service);
            }
        }
        if !service.has_input {
            serve_all(rt, hub, service, told, early);
            return Ok(());
        }
        let served = scope.spawn(move || serve_all(rt, hub, service, told, early));
        if !was_spawned(served) {
            return give_up(rt, hub, service);
        }
        run_lines(rt, hub, service, told, output, early);
        Ok(())
    })
}

/// Tells where connections are taken, and where it is told what runs.
fn tell_addresses<O: Print>(listeners: &ListenerHandles, output: &O) -> io::Result<()> {
    println!(output; "listening {}", listeners.connections.address)?;
    match &listeners.status {
        Some(page) => println!(output; "status {}", page.address),
        None => Ok(()),
    }
}

/// Whether a thread was spawned. It is joined where its scope ends.
fn was_spawned<T: Drop, E: Drop>(spawned: Result<T, E>) -> bool {
    spawned.is_ok()
}

/// A thread can't be had: those that run are ended.
fn give_up<L, R>(rt: &R, hub: &Hub<L>, service: &ServerParts) -> Result<(), AllocError>
where
    L: LogName + SlotName,
    R: Wait + Clock,
{
    service.listeners.close_status();
    service.listeners.termination.close(rt);
    end_server(rt, hub, service.listeners);
    Err(AllocError)
}

/// The lines of the standard input are done as they come, and answered on the standard output.
fn run_lines<L, R, O>(
    rt: &R,
    hub: &Hub<L>,
    service: &ServerParts,
    told: &ErrorLog,
    output: &O,
    early: &AtomicBool,
)
where
    L: LogName + SlotName,
    R: Wait + Clock,
    O: Print,
{
    let driven = Driven {
        rt,
        hub,
        listeners: service.listeners,
        input: &service.listeners.input,
        told,
        ends_with_input: service.ends_with_input,
    };
    let ended = run_input(&driven, output);
    let is_over = has_ended_server(rt, STANDARD_INPUT, ended, told, early);
    if is_over || service.ends_with_input {
        end_server(rt, hub, service.listeners);
    }
}

/// Ends the server once the process is told to end.
fn end_when_told<L, R>(rt: &R, hub: &Hub<L>, service: &ServerParts)
where
    L: LogName + SlotName,
    R: Wait + Clock,
{
    if service.listeners.termination.is_told(rt) {
        end_server(rt, hub, service.listeners);
    }
}

/// Tells whoever asks what runs, if there is a place for that.
fn show<L, R>(rt: &R, hub: &Hub<L>, service: &ServerParts, told: &ErrorLog)
where
    L: LogName + SlotName,
    R: Wait + Clock + RandomSource,
{
    let Some(page) = service.page else {
        return;
    };
    if let Err(fault) = serve_status(rt, hub, page, service.listeners) {
        told.line(rt, format_args!("pubd: the status page has ended: {fault}"));
    }
}

/// Serves until the last connection has ended. Why it ended early is told at once, and by `early`.
fn serve_all<L, R>(rt: &R, hub: &Hub<L>, service: &ServerParts, told: &ErrorLog, early: &AtomicBool)
where
    L: LogName + SlotName + Send + Sync,
    R: Threads + Wait + Clock + RandomSource + Sync,
{
    let reports = Reports::new(rt, hub.alloc(), told, service.level);
    let served = serve(rt, service.listener, hub, &reports);
    service.listeners.end_connections();
    hub.end_awaiting(rt);
    service.listeners.close_status();
    service.listeners.termination.close(rt);
    if let Err(fault) = served {
        told.line(rt, format_args!("pubd: {fault}"));
        early.store(true, Ordering::SeqCst);
    }
}

/// The scripts begin once the streams that they await have begun.
fn run_awaited<L, R>(
    rt: &R,
    hub: &Hub<L>,
    service: &ServerParts,
    told: &ErrorLog,
    early: &AtomicBool,
)
where
    L: LogName + SlotName + Send + Sync,
    R: Threads + Wait + Clock + RandomSource + Sync,
{
    hub.await_streams(rt, service.awaited);
    run_all(rt, hub, service.scripts, service.listeners, told, early);
}
