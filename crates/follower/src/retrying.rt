//! When a connection is tried again, and how long it is paused before.

ghost use Rattle.std.specs.Prelude.{◌≡◌, ◌*◌, ◌≤◌, min, if◌then◌else◌};
ghost use Rattle.follower.specs.declared.retrying.TheConstants.{SHORTEST_PAUSE, LONGEST_PAUSE};
ghost use Rattle.follower.specs.Retrying.{is_passing, is_passing_code};

use crate::fault::FollowFault;

/// The first pause, in milliseconds.
pub const SHORTEST_PAUSE: u64 = 100;

/// The longest pause, in milliseconds.
pub const LONGEST_PAUSE: u64 = 5_000;

/// The pauses before tries, in milliseconds: each is twice the one before, up to the longest; where something came meanwhile,
/// they begin again.
#[derive(Clone, Copy)]
pub struct Pauses {
    next: u64,
    ghost low: { SHORTEST_PAUSE ≤ next },
    ghost high: { next ≤ LONGEST_PAUSE },
}

impl Pauses {
    /// Before the first try.
    pub fn new() -> Self
        ensures { result.next ≡ SHORTEST_PAUSE }
    {
        Pauses {
            next: SHORTEST_PAUSE,
        }
    }

    /// The next pause, after a connection on which something came or nothing.
    pub fn pause(&mut self, has_gained: bool) -> u64
        ensures pause { result ≡ (if has_gained then SHORTEST_PAUSE else self.old.next) }
        ensures next { self.new.next ≡ min (2 * result) LONGEST_PAUSE }
        ensures low { SHORTEST_PAUSE ≤ result }
        ensures high { result ≤ LONGEST_PAUSE }
    {
        let pause = if has_gained {
            SHORTEST_PAUSE
        } else {
            self.next
        };
        self.next = (2 * pause).min(LONGEST_PAUSE);
        pause
    }
}

impl FollowFault {
    /// Whether it passes by itself, so that the same can be asked again: the connection was lost, or the server refuses for now.
    pub fn is_passing(&self) -> bool
        ensures { result ≡ is_passing self.now }
    {
        match self {
            FollowFault::Connection(_) | FollowFault::Silent | FollowFault::Ended => true,
            FollowFault::Server(said) => is_passing_code(said.code.as_str()),
            FollowFault::Client(_)
            | FollowFault::LongCommand
            | FollowFault::Output(_)
            | FollowFault::OtherSystem(_)
            | FollowFault::Login(_)
            | FollowFault::NoPublication(_) => false,
        }
    }
}

/// Whether a server refuses by this code for now: the slot is active (as long as the server doesn't know that its follower has
/// gone), too many connections, and a server that ends, crashed or begins.
fn is_passing_code(code: &str) -> bool
    ensures { result ≡ is_passing_code code.now }
{
    matches!(code, "55006" | "53300" | "57P01" | "57P02" | "57P03")
}
