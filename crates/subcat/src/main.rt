//! `subcat [--create] [--json [--send-times]] [--messages] [--user NAME] [--password-file FILE] [--follow [--copy] [--output FILE]]
//! ADDR SLOT POSITION PUBLICATIONS COUNT` follows a slot of a publisher, and prints each message of its stream, or, over lost
//! connections, each transaction once.
//!
//! `command.rt` reads the command line, `printout.rt` follows once, `keeping.rt` follows for good, with a `KeptOutput` as its
//! output, `password.rt` finds a password.
//!
//! Read `main.rt`, `keeping.rt`, `kept_output.rt`. One contract is used: that of `follower::resume`, over an output that is a file.
#![tactic(auto)]

mod command;
mod fault;
mod keeping;
mod kept_output;
mod password;
mod password_file;
mod printout;
mod side_file;

use command::{Words, words_of};
use command_line::{address_of, arguments_of, count_of, ended};
use fault::Fault;
use follower::{Form, Options, follow};
use keeping::{keep_in, keep_printing};
use password::{password_of, user_of};
use password_file::PassfileHost;
use printout::Printout;
use replcmd::parse_position;
use std::alloc::Global;
use std::io::{BufWriter, Write};
use std::net::{Net, SocketAddr, TcpListener, TcpStream};
use std::process::ExitCode;
use std::random::RandomSource;
use std::sync::Wait;
use std::time::Clock;

fn main(rt: HostRuntime) -> ExitCode {
    ended(&rt, run(&rt, &rt))
}

/// The runtime has the words and the output, and `net` the socket.
fn run<N: Net<Listener = TcpListener, Stream = TcpStream> + Wait + Clock + RandomSource>(
    rt: &HostRuntime,
    net: &N,
) -> Result<(), Fault> {
    let arguments = arguments_of(rt)?;
    run_called(rt, net, arguments.as_slice())
}

fn run_called<N: Net<Listener = TcpListener, Stream = TcpStream> + Wait + Clock + RandomSource>(
    rt: &HostRuntime,
    net: &N,
    arguments: &[String],
) -> Result<(), Fault> {
    let words = words_of(rt.alloc(), arguments)?;
    let address = address_of(words.address)?;
    let user = user_of(rt, words.user)?;
    let place = PassfileHost::of(words.address, user.as_str());
    let password = password_of(rt, words.password_file, &place)?;
    let options = options_of(
        &words,
        user.as_str(),
        password.as_ref().map(|p| p.as_slice()),
    )?;
    match words.output {
        Some(path) => keep_in(rt, net, address, &options, words.copy, path),
        None if words.follow => keep_printing(rt, net, address, &options, words.copy),
        None => follow_at(rt, net, address, &options),
    }
}

fn follow_at<N: Net<Listener = TcpListener, Stream = TcpStream> + Wait + Clock + RandomSource>(
    rt: &HostRuntime,
    net: &N,
    address: SocketAddr,
    options: &Options,
) -> Result<(), Fault> {
    let mut output = BufWriter::new(rt.alloc(), Printout::new(rt)).map_err(Fault::Output)?;
    follow_into(net, rt.alloc(), address, options, &mut output)
}

fn follow_into<
    N: Net<Listener = TcpListener, Stream = TcpStream> + Wait + Clock + RandomSource,
    W: Write,
>(
    net: &N,
    alloc: Global,
    address: SocketAddr,
    options: &Options,
    output: &mut W,
) -> Result<(), Fault> {
    let mut socket = TcpStream::connect(net, address).map_err(Fault::Connect)?;
    follow(net, alloc, &mut socket, options, output).map_err(Fault::Follow)
}

fn options_of<'a>(
    words: &Words<'a>,
    user: &'a str,
    password: Option<&'a [u8]>,
) -> Result<Options<'a>, Fault> {
    Ok(Options {
        create: words.create && !words.copy,
        slot: words.slot,
        position: position_in(words)?,
        system: None,
        publications: words.publications,
        messages: words.messages,
        count: count_in(words.count)?,
        form: if words.json { Form::Json } else { Form::Text },
        send_times: words.send_times,
        user,
        password,
    })
}

fn position_in(words: &Words<'_>) -> Result<u64, Fault> {
    match parse_position(words.position) {
        Ok(position) if words.copy && position != 0 => Err(Fault::CopyPosition),
        Ok(position) => Ok(position),
        Err(_) => Err(Fault::Position),
    }
}

fn count_in(text: &str) -> Result<u32, Fault> {
    match count_of(text) {
        Some(count) => Ok(count),
        None => Err(Fault::Count),
    }
}
