//! What is asked while a transaction is in progress.

ghost use Rattle.std.specs.Prelude.{◌≡◌};

use crate::fixtures::beside::serve_beside;
use crate::fixtures::hub_fixture::opened;
use crate::fixtures::peer::{connect, read_until, send_query};
use hub::{ChangeFault, EndFault, Hub, HubBuilder, NoopObserver, field};
use shared_log::LogName;
use slots::SlotName;
use std::alloc::Global;
use std::io::{Read, Write};
use std::marker::Brand;
use std::net::{Net, SocketAddr, TcpListener, TcpStream};
use std::random::RandomSource;
use std::sync::Wait;
use std::test::Fail;
use std::thread::Threads;
use std::time::{Clock, Duration};
use std::{io, thread};
use thiserror::Error;

const COMMANDS: [&str; 2] = [
    "IDENTIFY_SYSTEM",
    "CREATE_REPLICATION_SLOT s LOGICAL pgoutput NOEXPORT_SNAPSHOT",
];

/// How many seconds an answer may take, and the transaction stays open after the last.
const OPEN: u64 = 1;

#[test]
fn an_open_transaction_keeps_no_command_waiting(rt: HostRuntime) -> Result<(), Fail> {
    let alloc = rt.alloc();
    let answered = serve_one::<Brand, HostRuntime>(&rt, alloc, opened(alloc)?)?;
    assert!(rt; answered);
    Ok(())
}

fn serve_one<L, R>(rt: &R, alloc: Global, opened: HubBuilder) -> Result<bool, Fail>
where
    L: LogName + SlotName + Send + Sync,
    R: Net<Listener = TcpListener, Stream = TcpStream>
        + Threads
        + Wait
        + Clock
        + RandomSource
        + Sync,
    requires log { opened.log.history.seen.book ≡ L.book }
    requires slots { opened.slots.first.table_id ≡ L.table }
{
    let mut opened = opened;
    opened.settings.connections = Some(1);
    let hub = Hub::<L>::open(rt, opened)?;
    let asked = &hub;
    let answered = serve_beside(rt, &hub, &NoopObserver {}, |address| {
        ask_beside(rt, alloc, asked, address)
    });
    hub.close(rt);
    answered
}

/// Asks all while a transaction has inserted a row, and commits it then.
fn ask_beside<L, R>(rt: &R, alloc: Global, hub: &Hub<L>, address: SocketAddr) -> io::Result<bool>
where
    L: LogName + SlotName,
    R: Net<Listener = TcpListener, Stream = TcpStream> + Wait + Clock,
{
    let mut socket = connect(rt, alloc, address)?;
    socket.set_read_timeout(Some(Duration::from_secs(OPEN)))?;
    let Ok(mut tx) = hub.transaction(rt) else {
        return Ok(false);
    };
    let row = [field("id", 1), field("name", "a"), field("qty", 7i64)];
    let inserted = match tx.insert("public.item", &row) {
        Ok(()) => Ok(()),
        Err(fault) => Err(BesideFault::Insert(fault)),
    };
    let answered = ask_all(alloc, &mut socket);
    thread::sleep(rt, Duration::from_secs(OPEN));
    let ended = tx.end(inserted);
    answered?;
    Ok(ended.is_ok())
}

/// Why the transaction that was open was not committed.
#[derive(Clone, Copy, Debug, PartialEq, Eq, Error)]
enum BesideFault {
    #[error("{0}")]
    Insert(#[from] ChangeFault),
    #[error("{0}")]
    End(#[from] EndFault),
}

fn ask_all<S: Read + Write>(alloc: Global, socket: &mut S) -> io::Result<()> {
    for command in &COMMANDS {
        send_query(alloc, socket, *command)?;
        read_until(alloc, socket, b'Z')?;
    }
    Ok(())
}
