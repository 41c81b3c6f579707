//! The transactions in progress that have written.

ghost use Rattle.std.specs.Prelude.{◌≡◌, ◌==◌, ◌<◌, ◌^◌, [], IfOk, None, OnOk, Some, filter, not, true, vec_capacity, vec_len};
ghost use Rattle.std.specs.List.{list_any};
ghost use Rattle.shared_log.specs.Openings.{openings_after, place_or, place_where, restart_after};

use std::alloc::{AllocError, Global};

/// How many may be noted before memory is taken for more.
const RESERVED: usize = 256;

/// A transaction in progress, and the place of its first record.
#[derive(Clone, Copy, Drop)]
pub struct Opening {
    pub(crate) xid: u32,
    pub(crate) place: usize,
}

/// The transactions in progress that have a record, in the order of their first records.
#[derive(Drop)]
pub(crate) struct Openings {
    pub items: Vec<Opening>,
}

impl Openings {
    /// No transaction, with room for some. `AllocError` where memory for it is refused.
    pub fn new(alloc: Global) -> Result<Self, AllocError>
        ensures { IfOk result (λ openings. openings.items.items ≡ []) }
    {
        Ok(Openings {
            items: Vec::with_capacity(alloc, RESERVED)?,
        })
    }

    /// Room for one more. Room that there was stays. `AllocError` where memory is refused.
    pub fn reserve(&mut self) -> Result<(), AllocError>
        ensures same { self.new.items.items ≡ self.old.items.items }
        ensures room { OnOk result (vec_len self.new.items < vec_capacity self.new.items) }
        ensures stays { vec_len self.old.items < vec_capacity self.old.items →
            vec_len self.new.items < vec_capacity self.new.items }
    {
        self.items.reserve(1)
    }

    /// Notes a record of the transaction `top` at this place, which ends the transaction or doesn't, or one of no transaction.
    pub fn note(&mut self, top: Option<u32>, ends: bool, place: usize)
        requires room { vec_len self.old.items < vec_capacity self.old.items }
        ensures { self.new.items.items ≡ openings_after top ends place self.old.items.items }
    {
        if let Some(top) = top {
            self.note_of(top, ends, place);
        }
    }

    fn note_of(&mut self, top: u32, ends: bool, place: usize)
        requires room { vec_len self.old.items < vec_capacity self.old.items }
        ensures { self.new.items.items ≡ openings_after (Some top) ends place self.old.items.items }
    {
        if ends {
            self.remove(top);
        } else if !self.contains(top) {
            self.items.push_reserved(Opening { xid: top, place });
        }
    }

    fn remove(&mut self, top: u32)
        ensures { self.new.items.items ≡ filter (λ o. not (o.xid == top)) self.old.items.items }
    {
        self.items.retain(|opening| opening.xid != top);
    }

    fn contains(&self, top: u32) -> bool
        ensures { result ≡ list_any (λ o. o.xid == top) self.now.items.items }
    {
        self.items.iter().any(|opening| opening.xid == top)
    }

    /// The place of the oldest record of a transaction in progress, or the end of the log.
    pub fn oldest(&self, end: usize) -> usize
        ensures { result ≡ place_or end (place_where (λ x. true) self.now.items.items) }
    {
        match self.items.first() {
            Some(opening) => opening.place,
            None => end,
        }
    }

    /// The place of the oldest record of a transaction that is in progress after that record, or the place after it.
    pub fn restart_after(&self, top: Option<u32>, ends: bool, place: usize) -> usize
        requires few { place < 2 ^ 62 }
        ensures { result ≡ restart_after top ends place self.now.items.items }
    {
        match top {
            Some(top) => self.restart_of(top, ends, place),
            None => match self.items.first() {
                Some(opening) => opening.place,
                None => place + 1,
            },
        }
    }

    fn restart_of(&self, top: u32, ends: bool, place: usize) -> usize
        requires few { place < 2 ^ 62 }
        ensures { result ≡ restart_after (Some top) ends place self.now.items.items }
    {
        for opening in &self.items {
            if !ends || opening.xid != top {
                return opening.place;
            }
        }
        if ends { place + 1 } else { place }
    }
}
