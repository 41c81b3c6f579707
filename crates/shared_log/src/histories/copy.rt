//! The two copies of a log: readers see one, and the writer brings up the other.

ghost use Rattle.std.specs.Prelude.{◌≡◌, ◌+◌, ◌-◌, ◌≤◌, ◌<◌, ◌^◌, ◌++◌, ◌∷◌, [], drop, take, IfOk};
ghost use Rattle.std.specs.Arc.{arc_value};
ghost use Rattle.std.specs.VecDeque.{deque_capacity, deque_len};
ghost use Rattle.shared_log.specs.Kept.{edge_past, kept_in};
ghost use Rattle.shared_log.specs.Writing.{IsEmptyCopy};

use crate::appending::given::give_back;
use crate::histories::edge::Edge;
use crate::histories::entry::Entry;
use crate::histories::law::Law;
use crate::histories::mark::Mark;
use left_right::Absorb;
use logbook::Seen;
use std::alloc::{AllocError, Global};
use std::collections::VecDeque;
use std::sync::Arc;
use wal::{FIRST_POSITION, Record};

/// A record as it lies in a copy, shared with the other one.
#[derive(Drop)]
pub struct Logged {
    pub(crate) entry: Arc<Record>,
    /// The place from which whoever starts after the record begins to read.
    pub(crate) restart: usize,
}

/// A copy of the log: its records from the edge on, and the beginning of the history that says so.
#[derive(Drop)]
pub struct LogCopy {
    pub(crate) records: VecDeque<Logged>,
    pub(crate) edge: Edge,
    pub(crate) mark: Mark,
}

/// A record enters the log at a place, so one that stands there and was never confirmed gives way. Those before `edge` are given
/// back.
#[derive(Drop)]
pub struct PutRecord {
    pub(crate) place: usize,
    pub(crate) entry: Arc<Record>,
    pub(crate) restart: usize,
    pub(crate) edge: usize,
    pub(crate) mark: Mark,
}

impl LogCopy {
    /// Of an empty log, with room for so many records.
    pub(crate) fn empty(alloc: Global, records: usize, mark: &Mark) -> Result<Self, AllocError>
        ensures { IfOk result
            (λ copy. IsEmptyCopy copy × (copy.mark.seen ≡ mark.now.seen)) }
    {
        Ok(LogCopy {
            records: VecDeque::with_capacity(alloc, records)?,
            edge: Edge {
                place: 0,
                restart: 0,
                position: FIRST_POSITION,
            },
            mark: mark.again(),
        })
    }

    /// Makes way for a record at this place, and gives back those before the edge.
    fn make_way(&mut self, place: usize, edge: usize)
        ensures edge { self.new.edge ≡ edge_past self.old.edge
            (take (edge - self.old.edge.place)
            (take (place - self.old.edge.place) (kept_in self.old.records.items))) }
        ensures items { self.new.records.items ≡ drop (edge - self.old.edge.place)
            (take (place - self.old.edge.place) self.old.records.items) }
        ensures len { deque_len self.new.records ≤ deque_len self.old.records }
        ensures capacity { deque_capacity self.new.records ≡ deque_capacity self.old.records }
    {
        let before = self.edge.place;
        self.records.truncate(place.saturating_sub(before));
        give_back(
            &mut self.records,
            &mut self.edge,
            edge.saturating_sub(before),
        );
    }
}

impl Absorb<PutRecord> for LogCopy {
    // A clause reads an array as a list, of any length.
    type State = (Edge, [(Record, usize); 0], Seen<Entry, u64, Law>);

    ghost use Rattle.std.specs.Arc.{arc_value};
    ghost use Rattle.shared_log.specs.Kept.{edge_entered, kept_in, kept_entered};

    ghost state = { λ c. (c.edge, kept_in c.records.items, c.mark.seen) };

    ghost applied = { λ s put. (
      edge_entered put.place put.edge s.0 s.1,
      kept_entered put.place put.edge s.0 s.1 (arc_value put.entry, put.restart),
      put.mark.seen,
    ) };

    fn absorb_first(&mut self, operation: &PutRecord, _other: &LogCopy) -> Result<(), AllocError> {
        self.records.reserve(1)?;
        let entry = Arc::try_clone(&operation.entry)?;
        self.make_way(operation.place, operation.edge);
        self.records.push_back_reserved(Logged {
            entry,
            restart: operation.restart,
        });
        self.mark = operation.mark.again();
        Ok(())
    }

    fn absorb_second(&mut self, operation: PutRecord, _other: &LogCopy) -> Result<(), PutRecord> {
        match self.records.reserve(1) {
            Ok(()) => {}
            Err(_) => return Err(operation),
        }
        let PutRecord {
            place,
            entry,
            restart,
            edge,
            mark,
        } = operation;
        self.make_way(place, edge);
        self.records.push_back_reserved(Logged { entry, restart });
        self.mark = mark;
        Ok(())
    }
}
