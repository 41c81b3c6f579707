//! Following over lost connections.

use crate::fault::Fault;
use crate::kept_output::KeptOutput;
use crate::printout::Printout;
use follower::{
    FollowFault, Options, Output, Pauses, ResumePoint, Subscription, copy_rows, resume,
};
use std::alloc::Global;
use std::net::{Net, SocketAddr, TcpListener, TcpStream};
use std::random::RandomSource;
use std::sync::Wait;
use std::thread;
use std::time::{Clock, Duration};

/// For how many seconds a read waits. Then the server is asked whether it is there, and after as many more it is lost, as
/// PostgreSQL's wal_receiver_timeout has it unless it is set (PostgreSQL 15, 20.6.3).
const PATIENCE: u64 = 30;

/// Follows into the standard output. `Follow` where a fault isn't a passing one.
pub fn keep_printing<
    N: Net<Listener = TcpListener, Stream = TcpStream> + Wait + Clock + RandomSource,
>(
    rt: &HostRuntime,
    net: &N,
    address: SocketAddr,
    options: &Options,
    copies: bool,
) -> Result<(), Fault> {
    let mut subscription = Subscription::new(rt.alloc(), options);
    let mut output = Printout::new(rt);
    if copies {
        keep_copying(rt, net, address, options, &mut subscription, &mut output)?;
    }
    keep_following(rt, net, address, options, &mut subscription, &mut output)
}

/// Follows into a file, from where it ends. What it holds counts. Faults as of `KeptOutput::open` and `KeptOutput::system`, then as of
/// `keep_printing`.
pub fn keep_in<N: Net<Listener = TcpListener, Stream = TcpStream> + Wait + Clock + RandomSource>(
    rt: &HostRuntime,
    net: &N,
    address: SocketAddr,
    options: &Options,
    copies: bool,
    path: &str,
) -> Result<(), Fault> {
    let (mut journal, kept) = KeptOutput::open(rt, rt.alloc(), path, options.form)?;
    let system = journal.system(&kept)?;
    let mut subscription = Subscription::behind(rt.alloc(), options, &kept, system);
    if copies && kept.transactions == 0 {
        if journal.has_left(options.slot)? {
            subscription.note_left_slot();
        }
        keep_copying(rt, net, address, options, &mut subscription, &mut journal)?;
    }
    keep_following(rt, net, address, options, &mut subscription, &mut journal)
}

/// Copies into the output, over one connection after the other, until the copy is whole. Each that was lost is told, with the pause
/// after it.
fn keep_copying<
    N: Net<Listener = TcpListener, Stream = TcpStream> + Wait + Clock + RandomSource,
    W: Output,
>(
    rt: &HostRuntime,
    net: &N,
    address: SocketAddr,
    options: &Options,
    subscription: &mut Subscription,
    output: &mut W,
) -> Result<(), Fault> {
    let mut pauses = Pauses::new();
    for _ in net.forever() {
        let copied = copy_once(net, rt.alloc(), address, options, subscription, output);
        let Err(fault) = copied else {
            return Ok(());
        };
        pause_after(rt, fault, &mut pauses, false)?;
    }
    unreachable!()
}

fn copy_once<
    N: Net<Listener = TcpListener, Stream = TcpStream> + Wait + Clock + RandomSource,
    W: Output,
>(
    net: &N,
    alloc: Global,
    address: SocketAddr,
    options: &Options,
    subscription: &mut Subscription,
    output: &mut W,
) -> Result<(), FollowFault> {
    let mut socket = connected(net, address)?;
    copy_rows(net, alloc, &mut socket, options, subscription, output)
}

/// Goes on after what the output holds, over one connection after the other, until all is printed. Each that was lost is told, with
/// the pause after it.
fn keep_following<
    N: Net<Listener = TcpListener, Stream = TcpStream> + Wait + Clock + RandomSource,
    W: Output,
>(
    rt: &HostRuntime,
    net: &N,
    address: SocketAddr,
    options: &Options,
    subscription: &mut Subscription,
    output: &mut W,
) -> Result<(), Fault> {
    let mut pauses = Pauses::new();
    for _ in net.forever() {
        let stood = subscription.position();
        let followed = follow_once(net, rt.alloc(), address, options, subscription, output);
        let Err(fault) = followed else {
            return Ok(());
        };
        pause_after(rt, fault, &mut pauses, stood < subscription.position())?;
    }
    unreachable!()
}

/// Tells why a connection ended, and waits before the next. `Follow` where the fault isn't a passing one.
fn pause_after(
    rt: &HostRuntime,
    fault: FollowFault,
    pauses: &mut Pauses,
    has_gained: bool,
) -> Result<(), Fault> {
    if !fault.is_passing() {
        return Err(Fault::Follow(fault));
    }
    let pause = pauses.pause(has_gained);
    let _ = eprintln!(rt; "subcat: {fault}; tries again in {pause} ms");
    thread::sleep(rt, Duration::from_millis(pause));
    Ok(())
}

fn follow_once<
    N: Net<Listener = TcpListener, Stream = TcpStream> + Wait + Clock + RandomSource,
    W: Output,
>(
    net: &N,
    alloc: Global,
    address: SocketAddr,
    options: &Options,
    subscription: &mut Subscription,
    output: &mut W,
) -> Result<(), FollowFault> {
    let mut socket = connected(net, address)?;
    resume(net, alloc, &mut socket, options, subscription, output)
}

fn connected<N: Net<Listener = TcpListener, Stream = TcpStream>>(
    net: &N,
    address: SocketAddr,
) -> Result<TcpStream, FollowFault> {
    let socket = TcpStream::connect(net, address).map_err(FollowFault::Connection)?;
    let limited = socket.set_read_timeout(Some(Duration::from_secs(PATIENCE)));
    limited.map_err(FollowFault::Connection)?;
    Ok(socket)
}
