//! The end of the server, and of whoever waits at its listeners.

use crate::options::user_file::UserFile;
use crate::running::termination::Termination;
use crate::scripting::InputLines;
use hub::{Hub, ListenerHandle};
use shared_log::LogName;
use slots::SlotName;
use std::alloc::{AllocError, Global};
use std::io;
use std::net::TcpListener;
use std::sync::atomic::{AtomicBool, Ordering};
use std::sync::{Arc, Wait};
use std::time::Clock;

fn handle_of(listener: Option<&TcpListener>) -> io::Result<Option<ListenerHandle>> {
    match listener {
        Some(listener) => Ok(Some(ListenerHandle::of(listener)?)),
        None => Ok(None),
    }
}

/// The listeners of the server: for connections, for who asks what runs, if there is one, for lines, and for a signal.
#[derive(Drop)]
pub struct ListenerHandles {
    /// What polls the sockets of who asks: a thread is given nothing that only promises to have sockets.
    pub host: HostRuntime,
    pub connections: ListenerHandle,
    pub status: Option<ListenerHandle>,
    pub input: Arc<InputLines, Global>,
    pub termination: Arc<Termination, Global>,
    /// The file of those that may connect, where not everyone may.
    pub passwords: Option<UserFile>,
    /// Nobody is told any more what runs.
    is_status_over: AtomicBool,
    /// All connections have ended, and no more come.
    are_connections_over: AtomicBool,
}

impl ListenerHandles {
    /// The listeners at which these threads wait. The system's error where it gives no second handle of one, or `OutOfMemory`.
    pub fn of(
        host: &HostRuntime,
        connections: &TcpListener,
        status: Option<&TcpListener>,
        passwords: Option<UserFile>,
    ) -> io::Result<Self> {
        let status = handle_of(status)?;
        let input = input_of(host.alloc())?;
        let termination = Termination::new(host.alloc())?;
        Ok(ListenerHandles {
            host: *host,
            connections: ListenerHandle::of(connections)?,
            status,
            input,
            termination,
            passwords,
            is_status_over: AtomicBool::new(false),
            are_connections_over: AtomicBool::new(false),
        })
    }

    /// Ends the page that tells what runs, also where it is being told.
    pub fn close_status(&self) {
        self.is_status_over.store(true, Ordering::SeqCst);
        if let Some(listener) = &self.status {
            listener.shut();
        }
    }

    pub fn is_status_over(&self) -> bool {
        self.is_status_over.load(Ordering::SeqCst)
    }

    /// All connections have ended, and no more come.
    pub fn end_connections(&self) {
        self.are_connections_over.store(true, Ordering::SeqCst);
    }

    pub fn are_connections_over(&self) -> bool {
        self.are_connections_over.load(Ordering::SeqCst)
    }
}

fn input_of(alloc: Global) -> Result<Arc<InputLines, Global>, AllocError> {
    Ok(Arc::new(alloc, InputLines::new(alloc))?)
}

/// Ends the server: no line of the input is done any more; its streams send what is left, and CopyDone. Ten seconds later it closes
/// the connections that aren't over.
pub fn end_server<L, R>(rt: &R, hub: &Hub<L>, listeners: &ListenerHandles)
where
    L: LogName + SlotName,
    R: Wait + Clock,
{
    listeners.input.close(rt);
    hub.stop(rt, &listeners.connections);
}
