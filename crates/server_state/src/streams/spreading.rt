//! How streams are told of what was written.

ghost use Rattle.std.specs.Prelude.{◌≡◌, ◌≤◌, None, Some, MatchOption, length, max, vec_len};
ghost use Rattle.server_state.specs.Notices.{IsWoken, greatest, news_of_commit, news_of_end};

use crate::server_state::ServerState;
use crate::streams::commit_notice::CommitNotice;
use connections::{Latch, moment};
use shared_log::LogName;
use slots::SlotName;
use std::marker::Model;
use std::sync::Wait;
use std::time::Clock;
use txlog::Receipt;

/// What was written that no stream was told of: where the log ends after it, and the receipt of a commit. It isn't `Drop`:
/// `ServerState::spread` tells it.
pub(crate) struct Unheard<L: LogName> {
    end: u64,
    receipt: Option<Receipt<L>>,
}

impl<L: LogName> Model for Unheard<L> {
    ghost use Rattle.server_state.specs.Notices.{News};

    ghost Value = { News };

    ghost view = { λ u. record { end = u.end; receipt = u.receipt } };
}

impl<L: LogName> Unheard<L> {
    pub fn of_commit(receipt: Receipt<L>) -> Self
        ensures { result ≡ news_of_commit receipt }
    {
        Unheard {
            end: receipt.end(),
            receipt: Some(receipt),
        }
    }

    /// Of a note or an abort, after which the log ends there.
    pub fn of_end(end: u64) -> Self
        ensures { result ≡ news_of_end end }
    {
        Unheard { end, receipt: None }
    }
}

/// How many latches were told where the log ends.
#[derive(Clone, Copy)]
pub struct Woken {
    told: usize,
    end: u64,
}

impl Woken {
    /// Tells each latch.
    pub(crate) fn all<R: Wait>(rt: &R, latches: &[Latch], end: u64) -> Self
        ensures { result ≡ record { told = length latches.now; end = end } }
    {
        let mut woken = Woken { told: 0, end };
        for latch in latches {
            latch.tell_end(rt, end);
            woken.told += 1;
        }
        woken
    }
}

impl<L: LogName + SlotName> ServerState<L> {
    /// Streams read on after what was written, at least: each latch is told.
    pub(crate) fn spread<R: Wait + Clock>(&self, rt: &R, unheard: Unheard<L>) -> Woken
        ensures { IsWoken (vec_len self.now.latches) unheard.end result }
    {
        let end = self.heard(rt, unheard);
        Woken::all(rt, &self.latches, end)
    }

    /// The same where the log isn't kept on a disk. Where it is, streams read on once it is there.
    pub(crate) fn tell<R: Wait + Clock>(&self, rt: &R, unheard: Unheard<L>) {
        match &self.durability {
            Some(durability) => {
                self.heard(rt, unheard);
                durability.want(rt);
            }
            None => {
                self.spread(rt, unheard);
            }
        }
    }

    /// Notes what was written, and answers how far streams have to read by now.
    fn heard<R: Wait + Clock>(&self, rt: &R, unheard: Unheard<L>) -> u64
        ensures { unheard.end ≤ result }
    {
        if let Some(now) = moment(rt) {
            self.times.lock(rt).note(unheard.end, now);
        }
        let mut notice = self.notice.lock(rt);
        let end = hear(&mut *notice, unheard);
        drop(notice);
        end
    }
}

/// Notes what was written, and answers how far streams have to read by now.
fn hear<L: LogName>(notice: &mut CommitNotice<L>, unheard: Unheard<L>) -> u64
    ensures end { unheard.end ≤ result }
    ensures notice { MatchOption unheard.receipt
        (notice.new ≡ record notice.old { noted = max notice.old.noted unheard.end })
        (λ receipt. notice.new
        ≡ record notice.old { latest = Some (greatest notice.old.latest receipt) }) }
{
    let Unheard { end, receipt } = unheard;
    match receipt {
        Some(receipt) => notice.publish(receipt),
        None => notice.note(end),
    }
    notice.end().max(end)
}
