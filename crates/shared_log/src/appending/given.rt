//! Records that are given back.

ghost use Rattle.std.specs.Prelude.{◌≡◌, ◌+◌, ◌<◌, ◌≤◌, ◌^◌, drop, min, take};
ghost use Rattle.std.specs.VecDeque.{deque_capacity, deque_len};
ghost use Rattle.shared_log.specs.Kept.{edge_past, kept_in};

use crate::histories::copy::Logged;
use crate::histories::edge::Edge;
use std::collections::VecDeque;

/// How many records are given back at most when one is added, so that no writer is held up by many.
const GIVEN_AT_ONCE: usize = 16;

/// Gives the first `count` records back, or all where there are fewer.
pub(crate) fn give_back(records: &mut VecDeque<Logged>, edge: &mut Edge, count: usize)
    requires fits { edge.old.place + count < 2 ^ 64 }
    ensures edge { edge.new ≡ edge_past edge.old (take count (kept_in records.old.items)) }
    ensures items { records.new.items ≡ drop count records.old.items }
    ensures len { deque_len records.new ≤ deque_len records.old }
    ensures capacity { deque_capacity records.new ≡ deque_capacity records.old }
{
    for _ in 0..count {
        match records.pop_front() {
            Some(logged) => {
                *edge = Edge {
                    place: edge.place + 1,
                    restart: logged.restart,
                    position: logged.entry.end,
                };
            }
            None => return,
        }
    }
}

/// Where a copy begins that has one record more: nearer to the place up to which records may be given back.
pub(crate) fn next_edge(edge: usize, given: usize) -> usize
    requires { edge ≤ given }
    ensures { result ≡ min given (edge + 16) }
{
    edge + (given - edge).min(GIVEN_AT_ONCE)
}
