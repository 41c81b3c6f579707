//! Following a slot over lost connections, for as many transactions as the options say.

use crate::cache::Cache;
use follower::{FollowFault, Follower, FollowerHost, Options, Pauses, connect};
use std::net::SocketAddr;
use std::thread;
use std::time::Duration;

/// Applies the transactions, over one connection after the other. Faults as of `Follower`, where they aren't passing ones.
pub fn follow<R: FollowerHost>(
    rt: &R,
    address: SocketAddr,
    options: &Options<'_>,
    cache: &mut Cache,
) -> Result<(), FollowFault> {
    let mut pauses = Pauses::new();
    for _ in rt.forever() {
        let stood = cache.position;
        match follow_once(rt, address, options, cache) {
            Err(fault) if fault.is_passing() => {}
            ended => return ended,
        }
        let pause = pauses.pause(stood < cache.position);
        thread::sleep(rt, Duration::from_millis(pause));
    }
    unreachable!()
}

/// Over one connection, from where the cache is. The slot is created the first time: what one that is created later has missed is lost.
fn follow_once<R: FollowerHost>(
    rt: &R,
    address: SocketAddr,
    options: &Options<'_>,
    cache: &mut Cache,
) -> Result<(), FollowFault> {
    let left = options.count.saturating_sub(cache.transactions);
    let system = cache.system.as_ref().map(|system| system.as_str());
    let options = Options {
        create: system.is_none(),
        position: cache.position,
        system,
        ..*options
    };
    let mut follower = Follower::new(rt, cache.alloc, connect(rt, address)?, &options)?;
    cache.system = Some(follower.system().to_string(cache.alloc)?);
    for _ in 0..left {
        let transaction = follower.next(rt)?.ok_or(FollowFault::Ended)?;
        cache.apply(&transaction)?;
        follower.acknowledge(rt)?;
    }
    follower.end()
}
