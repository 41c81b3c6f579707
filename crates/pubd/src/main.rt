//! `pubd CONFIG ADDR CONNECTIONS [SCRIPT]...` serves replication connections, and runs scripts beside them.
//!
//! `main.rt` reads the command line (`options/`), `running/opening.rt` makes the hub that it asks for, and `running/serving.rt`
//! starts what runs beside it: listeners, scripts (`scripting/`), the status page (`status/`), and reports on standard error
//! (`standard_error/`). `running/ending.rt` ends all of it in order.
//!
//! Read `main.rt`, `options/command.rt`, `running/serving.rt`, `running/scripts.rt`, `running/ending.rt`. One contract is used: a
//! session's line of a script is a call of `schedule::Sessions::line`; of sockets and threads, runs tell.
#![tactic(auto)]

mod fault;
mod options;
mod running;
mod scripting;
mod standard_error;
mod status;

use command_line::{arguments_of, ended};
use configuration::config_at;
use fault::Fault;
use hub::HubBuilder;
use options::command::words_of;
use options::command_fault::CommandFault;
use options::password::tell_password;
use options::user_file::{UserFile, asked_users};
use options::words::{Numbers, Words};
use running::beginning::{begin_reading, begin_telling, begin_watching};
use running::data_folder::DataFolder;
use running::descriptors::open_standard;
use running::ending::ListenerHandles;
use running::host::{Host, SharedHost};
use running::inspecting::inspect;
use running::opening::opened;
use running::serving::{ServerParts, served};
use scripting::{STANDARD_INPUT, Script, scripts_at};
use segments::Segment;
use sqlite_std_file::File;
use standard_error::error_log::ErrorLog;
use standard_error::level::Level;
use std::io;
use std::marker::Brand;
use std::net::{Net, SocketAddr, TcpListener, TcpStream};
use std::process::ExitCode;
use std::random::RandomSource;
use std::sync::Wait;
use std::thread::Threads;
use std::time::Clock;

fn main(rt: HostRuntime) -> ExitCode {
    open_standard(&rt);
    ended(&rt, run(&rt, &rt))
}

/// The runtime has the words and the files, and `host` the threads and the sockets.
fn run<R>(rt: &HostRuntime, host: &R) -> Result<(), Fault>
where
    R: Net<Listener = TcpListener, Stream = TcpStream>
        + Threads
        + Wait
        + Clock
        + RandomSource
        + Eprint
        + SharedHost,
{
    let arguments = arguments_of(rt).map_err(CommandFault::Words)?;
    run_called(rt, host, arguments.as_slice())
}

fn run_called<R>(rt: &HostRuntime, host: &R, arguments: &[String]) -> Result<(), Fault>
where
    R: Host,
{
    let words = words_of(rt.alloc(), arguments)?;
    match (words.password_of, words.inspected) {
        (Some(name), _) => Ok(tell_password(rt, name)?),
        (None, Some(folder)) => Ok(inspect(rt, folder)?),
        (None, None) => run_words(rt, host, &words),
    }
}

/// All that can be refused is judged before the first connection is taken.
fn run_words<R>(rt: &HostRuntime, host: &R, words: &Words) -> Result<(), Fault>
where
    R: Host,
{
    let numbers = words.numbers()?;
    let scripts = scripts_at(rt, words.scripts.as_slice())?;
    let asked = Invocation {
        config: words.config,
        numbers: &numbers,
        scripts: scripts.as_slice(),
        passwords: words.passwords,
        data: words.data,
        has_input: words.scripts.as_slice().contains(&STANDARD_INPUT),
    };
    listen(rt, host, &asked)
}

/// What is asked for, read but for the configuration.
#[derive(Clone, Copy)]
struct Invocation<'a> {
    config: &'a str,
    numbers: &'a Numbers,
    scripts: &'a [Script],
    /// The file of those that may connect.
    passwords: Option<&'a str>,
    /// The folder in which the log is kept.
    data: Option<&'a str>,
    /// Whether lines come from the standard input.
    has_input: bool,
}

fn listen<R>(rt: &HostRuntime, host: &R, asked: &Invocation) -> Result<(), Fault>
where
    R: Host,
{
    let listener = TcpListener::bind(host, asked.numbers.address).map_err(Fault::Listen)?;
    let page = page_at(host, asked.numbers.status).map_err(Fault::Listen)?;
    serve_at(rt, host, asked, &listener, page.as_ref())
}

/// The listener of the page that tells what runs, if there is to be one.
fn page_at<R>(host: &R, address: Option<SocketAddr>) -> io::Result<Option<TcpListener>>
where
    R: Net<Listener = TcpListener, Stream = TcpStream>,
{
    match address {
        Some(address) => TcpListener::bind(host, address).map(Some),
        None => Ok(None),
    }
}

fn serve_at<R>(
    rt: &HostRuntime,
    host: &R,
    asked: &Invocation,
    listener: &TcpListener,
    page: Option<&TcpListener>,
) -> Result<(), Fault>
where
    R: Host,
{
    let passwords = UserFile::asked(rt, asked.passwords)?;
    let listeners = ListenerHandles::of(rt, listener, page, passwords);
    let listeners = listeners.map_err(Fault::Listen)?;
    let service = ServerParts {
        listener,
        page,
        listeners: &listeners,
        awaited: asked.numbers.awaited,
        level: asked.numbers.level,
        scripts: asked.scripts,
        has_input: asked.has_input,
        ends_with_input: asked.has_input && asked.numbers.ends_with_input,
        ends_on_sigterm: asked.numbers.ends_on_sigterm,
    };
    serve_configured(rt, host, asked, &service)
}

fn serve_configured<R>(
    rt: &HostRuntime,
    host: &R,
    asked: &Invocation,
    service: &ServerParts,
) -> Result<(), Fault>
where
    R: Host,
{
    let config = config_at(rt, asked.config)?;
    let told = begin_telling(host, rt.alloc(), config.server().records)?;
    if service.has_input {
        begin_reading(host, rt.stdin(), &service.listeners.input)?;
    }
    if service.ends_on_sigterm {
        begin_watching(rt, host, &service.listeners.termination)?;
    }
    let mut opened = opened(rt, config, asked.numbers)?;
    opened.users = asked_users(rt, asked.passwords)?;
    warn(host, asked, &told);
    let segment = segment_of(rt, asked.data, &mut opened)?;
    let done = served::<Brand, R, _>(host, opened, segment, service, &told, &rt.stdout());
    told.end(host);
    done
}

/// The segment in which the log is kept, if it is: the hub goes on by its entries.
fn segment_of(
    rt: &HostRuntime,
    data: Option<&str>,
    opened: &mut HubBuilder,
) -> Result<Option<Segment<File>>, Fault> {
    let Some(path) = data else {
        return Ok(None);
    };
    let DataFolder { segment, entries } = DataFolder::open(rt, path, opened.identity())?;
    opened.entries = Some(entries);
    Ok(Some(segment))
}

/// Tells that everyone may connect, and not from this machine alone.
fn warn<R: Wait>(rt: &R, asked: &Invocation, told: &ErrorLog) {
    let address = asked.numbers.address;
    if asked.passwords.is_none() && !address.ip().is_loopback() {
        told.line(
            rt,
            format_args!("pubd: everyone may connect at {address}: --passwords asks for passwords"),
        );
    }
}
