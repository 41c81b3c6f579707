//! Two followers, each with a slot of its own.

use follower::{FollowFault, Options, Subscription, resume};
use hub::ServerHost;
use std::alloc::Global;
use std::net::{Net, SocketAddr, TcpListener, TcpStream};
use std::random::RandomSource;
use std::sync::Wait;
use std::thread;
use std::time::Clock;

/// What the followers got, a line each message.
#[derive(Drop)]
pub struct Followed {
    pub all: Vec<u8>,
    pub large: Vec<u8>,
}

/// Both followers, side by side: of all tables and messages, through the four transactions and the note that the service commits;
/// and of the large orders, of which there are two.
pub fn follow_both<R>(rt: &R, alloc: Global, address: SocketAddr) -> Result<Followed, FollowFault>
where
    R: ServerHost,
{
    let mut all = Options::new("warehouse", "all");
    all.messages = true;
    all.count = 5;
    let mut large = Options::new("sales", "large");
    large.count = 2;
    let (all, large) = thread::join(
        rt,
        || follow_one(rt, alloc, address, &all),
        || follow_one(rt, alloc, address, &large),
    );
    Ok(Followed {
        all: all?,
        large: large?,
    })
}

fn follow_one<R>(
    rt: &R,
    alloc: Global,
    address: SocketAddr,
    options: &Options<'_>,
) -> Result<Vec<u8>, FollowFault>
where
    R: Net<Listener = TcpListener, Stream = TcpStream> + Wait + Clock + RandomSource,
{
    let mut socket = TcpStream::connect(rt, address).map_err(FollowFault::Connection)?;
    let mut subscription = Subscription::new(alloc, options);
    let mut lines = Vec::new(alloc);
    resume(
        rt,
        alloc,
        &mut socket,
        options,
        &mut subscription,
        &mut lines,
    )?;
    Ok(lines)
}
