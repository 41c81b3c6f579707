//! What a commit makes ready.

ghost use Rattle.std.specs.Prelude.{◌≡◌, ◌<◌, Some, length, slice_get};
ghost use Rattle.reorder.specs.Lents.{strands_in};
ghost use Rattle.reorder.specs.Orders.{places_in};

use crate::places::change_order::ChangeOrder;
use crate::places::lent::Lent;
use crate::places::members::Members;
use crate::places::place::Place;
use std::marker::Model;

/// The changes that a committed transaction keeps, in log order, those of rolled-back subtransactions left out. There are
/// `count()` of them, maybe none; `Reorder::entry` lends each by its place, and `Reorder::finish` takes them back.
#[derive(Drop)]
pub struct CommittedChanges {
    members: Members,
    /// The strands of those that have changes.
    strands: Lent,
    order: ChangeOrder,
    /// The chunk of the arena in which the last of them was found.
    near: usize,
}

impl Model for CommittedChanges {
    ghost use Rattle.reorder.specs.Ready.{ReadyState};
    ghost use Rattle.reorder.specs.Lents.{strands_in};
    ghost use Rattle.reorder.specs.Orders.{places_in};

    ghost Value = { ReadyState };

    ghost view = { λ r. record {
      xids = r.members;
      strands = strands_in r.strands;
      places = places_in r.order;
    } };
}

impl CommittedChanges {
    /// How many changes there are.
    pub fn count(&self) -> usize
        ensures { result ≡ length self.now.places }
    {
        self.order.count()
    }

    /// Where the k-th of them lies.
    pub(crate) fn place(&self, k: usize) -> Place
        requires { k < length self.now.places }
        ensures { slice_get self.now.places k ≡ Some result }
    {
        self.order.place(k, self.near)
    }

    /// Notes the chunk in which one was found.
    pub(crate) fn note_near(&mut self, near: usize)
        ensures { self.new ≡ self.old }
    {
        self.near = near;
    }

    pub(crate) fn strands(&self) -> &Lent
        ensures { strands_in result.now ≡ self.now.strands }
    {
        &self.strands
    }

    pub(crate) fn new(members: Members, strands: Lent, order: ChangeOrder) -> CommittedChanges
        ensures { result
            ≡ record {
              xids = members;
              strands = strands_in strands;
              places = places_in order;
            } }
    {
        CommittedChanges {
            members,
            strands,
            order,
            near: 0,
        }
    }

    pub(crate) fn into_parts(self) -> (Members, Lent)
        ensures xids { result.0 ≡ self.xids }
        ensures strands { strands_in result.1 ≡ self.strands }
    {
        let CommittedChanges {
            members,
            strands,
            ..
        } = self;
        (members, strands)
    }
}

/// What a record brings.
pub enum RecordOutcome {
    /// Nothing to publish yet: the record is no Commit.
    Quiet,
    /// A transaction committed, with these changes.
    Ready(CommittedChanges),
}
