//! Which starts are open. A connection's line finds its start among these, however many there ever were.

ghost use Rattle.std.specs.Prelude.{◌≡◌, map, slice_get};
ghost use Rattle.world.specs.Machine.{is_for, place_among, without_place};
ghost use Rattle.world.specs.Starts.{start_state};

use crate::stepping::start::Start;
use pqformat::Text;
use shared_log::LogName;

/// The place of the open start of the connection, among the places of the open starts.
pub(crate) fn place_among<L: LogName>(
    starts: &[Start<L>],
    opened: &[usize],
    connection: &Text,
) -> Option<usize>
    ensures { result ≡ place_among connection.now (map start_state starts.now) opened.now }
{
    for place in opened {
        if is_at(starts, *place, connection) {
            return Some(*place);
        }
    }
    None
}

fn is_at<L: LogName>(starts: &[Start<L>], place: usize, connection: &Text) -> bool
    ensures { result ≡ is_for connection.now (slice_get (map start_state starts.now) place) }
{
    match starts.get(place) {
        Some(start) => start.is_open_for(connection),
        None => false,
    }
}

/// Takes a place out of those of the open starts.
pub(crate) fn close(opened: &mut Vec<usize>, place: usize)
    ensures { opened.new.items ≡ without_place place opened.old.items }
{
    opened.retain(|at| *at != place);
}
