//! A page over HTTP that tells what runs, to many at once on one thread: none of them waits for another.

use crate::running::ending::ListenerHandles;
use crate::status::asker::Asker;
use crate::status::status_service::StatusService;
use hub::Hub;
use mio::net::TcpStream;
use mio::unix::SourceFd;
use mio::{Events, Interest, Poll, Token};
use shared_log::LogName;
use slots::SlotName;
use std::alloc::Global;
use std::io::ErrorKind;
use std::net::TcpListener;
use std::os::fd::AsRawFd;
use std::random::RandomSource;
use std::sync::Wait;
use std::time::{Clock, Duration};
use std::{io, net};

/// How many may ask at once. One more has the one go that began first.
const MOST_ASKERS: usize = 64;

/// How many events are taken at once. Each turn looks at all who ask, so that none is lost.
const EVENTS: usize = 64;

/// For how many milliseconds a listener rests that can't give a connection for now.
const REST: u64 = 100;

/// Events of the listener, and of who asks.
const LISTENER: Token = Token(0);

const ASKER: Token = Token(1);

/// Tells whoever asks what runs, until the page is over. The system's error where sockets can't be waited for, the clock can't be
/// read or no random bytes are to be had, or `OutOfMemory`.
pub fn serve_status<L, R>(
    rt: &R,
    hub: &Hub<L>,
    listener: &TcpListener,
    listeners: &ListenerHandles,
) -> io::Result<()>
where
    L: LogName + SlotName,
    R: Wait + Clock + RandomSource,
{
    let mut page = Page::new(&listeners.host, hub, listener)?;
    for _ in rt.forever() {
        page.wait(rt)?;
        if listeners.is_status_over() {
            break;
        }
        page.turn(rt, hub, listener)?;
    }
    Ok(())
}

/// Those who ask, in the order in which they came, and what they and the listener wait for.
#[derive(Drop)]
struct Page {
    poll: Poll,
    events: Events,
    askers: Vec<Asker>,
    /// After how long the listener is looked at again, where it has more to give, or gave a fault.
    pause: Option<Duration>,
}

impl Page {
    fn new<L: LogName + SlotName>(
        host: &HostRuntime,
        hub: &Hub<L>,
        listener: &TcpListener,
    ) -> io::Result<Self> {
        let poll = Poll::new(host)?;
        listener.set_nonblocking(true)?;
        let fd = listener.as_raw_fd();
        poll.registry()
            .register(&mut SourceFd(&fd), LISTENER, Interest::READABLE)?;
        Ok(Page {
            poll,
            events: Events::with_capacity(hub.alloc(), EVENTS)?,
            askers: Vec::new(hub.alloc()),
            pause: None,
        })
    }

    /// Waits until somebody comes, or can go on, or has asked for too long.
    fn wait<R: Clock>(&mut self, rt: &R) -> io::Result<()> {
        let left = match self.askers.first() {
            Some(first) => Some(first.left(rt.monotonic()?)),
            None => None,
        };
        self.poll.poll(&mut self.events, self.pause.or(left))
    }

    /// Takes who has come, and goes on with each who asks.
    fn turn<L, R>(&mut self, rt: &R, hub: &Hub<L>, listener: &TcpListener) -> io::Result<()>
    where
        L: LogName + SlotName,
        R: Wait + Clock + RandomSource,
    {
        self.pause = Some(Duration::from_millis(0));
        for _ in 0..MOST_ASKERS {
            match listener.accept() {
                Ok((socket, _)) => {
                    let _ = self.add(rt, hub.alloc(), socket);
                }
                Err(fault) => {
                    self.pause = pause_after(&fault);
                    break;
                }
            }
        }
        self.go_on(rt, hub)
    }

    /// One more asks.
    fn add<R: Clock + RandomSource>(
        &mut self,
        rt: &R,
        alloc: Global,
        socket: net::TcpStream,
    ) -> io::Result<()> {
        let mut asker = asker_at(rt, alloc, socket)?;
        let registered = self.register(&mut asker);
        self.admit(asker, registered)
    }

    /// Has its socket wake the page.
    fn register(&self, asker: &mut Asker) -> io::Result<()> {
        let both = Interest::READABLE | Interest::WRITABLE;
        self.poll
            .registry()
            .register(&mut asker.socket, ASKER, both)
    }

    /// Keeps it, where it was registered.
    fn admit(&mut self, asker: Asker, registered: io::Result<()>) -> io::Result<()> {
        if let Err(fault) = registered {
            // Let go before the way out, which keeps the proof short.
            drop(asker);
            return Err(fault);
        }
        if MOST_ASKERS <= self.askers.len() {
            self.askers.remove(0);
        }
        Ok(self.askers.push(asker)?)
    }

    /// Goes on with each who asks. Those that are over go.
    fn go_on<L, R>(&mut self, rt: &R, hub: &Hub<L>) -> io::Result<()>
    where
        L: LogName + SlotName,
        R: Wait + Clock,
    {
        let now = rt.monotonic()?;
        let mut service = StatusService { rt, hub };
        for place in (0..self.askers.len()).rev() {
            let stays = match self.askers.get_mut(place) {
                Some(asker) => asker.go_on(&mut service, now),
                None => true,
            };
            if !stays && place < self.askers.len() {
                self.askers.remove(place);
            }
        }
        Ok(())
    }
}

/// One who asks from now on.
fn asker_at<R: Clock + RandomSource>(
    rt: &R,
    alloc: Global,
    socket: net::TcpStream,
) -> io::Result<Asker> {
    socket.set_nonblocking(true)?;
    let now = rt.monotonic()?;
    Asker::new(rt, alloc, TcpStream::from_std(socket), now)
}

/// After how long a listener is looked at again that gave this fault: None where nobody waits there.
fn pause_after(fault: &io::Error) -> Option<Duration> {
    if fault.kind() == ErrorKind::WouldBlock {
        return None;
    }
    Some(Duration::from_millis(REST))
}
