//! A hub for the time that a service runs.

ghost use Rattle.std.specs.Prelude.{◌≡◌, IfOk};

use crate::hub::Hub;
use crate::listener_handle::ListenerHandle;
use crate::service::Service;
use crate::serving::serve;
use connections::NoopObserver;
use server_state::{HubBuilder, HubFault, ServeFault};
use shared_log::LogName;
use slots::SlotName;
use std::marker::Brand;
use std::net::TcpListener;
use std::random::RandomSource;
use std::sync::Wait;
use std::thread::Threads;
use std::time::Clock;
use std::{io, thread};
use thiserror::Error;

/// Why a service wasn't served to its end.
#[derive(Debug, Drop, Error)]
pub enum WithHubFault {
    #[error("no hub was opened: {0}")]
    Open(HubFault),
    #[error("the listener can't be shut at the end: {0}")]
    Shut(io::Error),
    #[error("{0}")]
    Serve(ServeFault),
}

/// Opens a hub, serves connections of this listener from it while the service runs, and closes both.
///
/// When the service is done, no connection is taken any more, the streams send what they have not sent yet, and their clients have
/// ten seconds to take it. An error of the hub's or the listener's comes before the service runs; where the listener breaks later,
/// the service ends its work all the same, and its answer is lost.
pub fn with_hub<R, S>(
    rt: &R,
    listener: TcpListener,
    builder: HubBuilder,
    service: S,
) -> Result<S::Output, WithHubFault>
where
    R: Threads + Wait + Clock + RandomSource + Sync,
    S: Service + Drop,
    S::Output: Drop,
    ensures { IfOk result (S.answers service) }
{
    run_named::<Brand, R, S>(rt, &listener, builder, service)
}

/// The log and the slots are named by the call. A hub must be closed, so whatever may fail stands in calls that borrow it.
fn run_named<L, R, S>(
    rt: &R,
    listener: &TcpListener,
    builder: HubBuilder,
    service: S,
) -> Result<S::Output, WithHubFault>
where
    L: LogName + SlotName + Send + Sync,
    R: Threads + Wait + Clock + RandomSource + Sync,
    S: Service + Drop,
    S::Output: Drop,
    requires log { builder.log.history.seen.book ≡ L.book }
    requires slots { builder.slots.first.table_id ≡ L.table }
    ensures { IfOk result (S.answers service) }
{
    let hub = match Hub::<L>::open(rt, builder) {
        Ok(hub) => hub,
        Err(fault) => {
            drop(service);
            return Err(WithHubFault::Open(fault));
        }
    };
    let answered = serve_beside(rt, listener, &hub, service);
    hub.close(rt);
    answered
}

/// Serves connections beside the service, until that is done.
fn serve_beside<L, R, S>(
    rt: &R,
    listener: &TcpListener,
    hub: &Hub<L>,
    service: S,
) -> Result<S::Output, WithHubFault>
where
    L: LogName + SlotName + Send + Sync,
    R: Threads + Wait + Clock + RandomSource + Sync,
    S: Service + Drop,
    S::Output: Drop,
    ensures { IfOk result (S.answers service) }
{
    let handle = match ListenerHandle::of(listener) {
        Ok(handle) => handle,
        Err(fault) => {
            drop(service);
            return Err(WithHubFault::Shut(fault));
        }
    };
    let (served, answer) = thread::join(
        rt,
        || serve_all(rt, listener, hub),
        || run_to_end(rt, hub, &handle, service),
    );
    match served {
        Ok(()) => Ok(answer),
        Err(fault) => {
            drop(answer);
            Err(WithHubFault::Serve(fault))
        }
    }
}

/// Serves until the server ends. Where it ends early, nobody awaits streams any more.
fn serve_all<L, R>(rt: &R, listener: &TcpListener, hub: &Hub<L>) -> Result<(), ServeFault>
where
    L: LogName + SlotName + Send + Sync,
    R: Threads + Wait + Clock + RandomSource + Sync,
{
    let served = serve(rt, listener, hub, &NoopObserver);
    hub.end_awaiting(rt);
    served
}

/// Runs the service, and ends the server after it.
fn run_to_end<L, R, S>(rt: &R, hub: &Hub<L>, handle: &ListenerHandle, service: S) -> S::Output
where
    L: LogName + SlotName,
    R: Wait + Clock,
    S: Service,
    ensures { S.answers service result }
{
    let answer = service.run(rt, hub);
    hub.stop(rt, handle);
    answer
}
