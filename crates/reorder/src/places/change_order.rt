//! In which order the changes of a transaction come.

ghost use Rattle.std.specs.Prelude.{◌≡◌, ◌<◌, Some, length, slice_get};
ghost use Rattle.reorder.specs.Orders.{places_in};

use crate::places::place::{Place, Spot};

/// The order of the changes of a transaction.
#[derive(Drop)]
pub(crate) enum ChangeOrder {
    /// So many changes of one xid, in the order in which they were made. It takes no memory, and costs no time, however many they are.
    Whole { xid: u32, count: usize },
    /// Changes of several xids.
    Listed(Vec<Spot>),
}

impl ChangeOrder {
    /// How many changes there are.
    pub(crate) fn count(&self) -> usize
        ensures { result ≡ length (places_in self.now) }
    {
        match self {
            ChangeOrder::Whole { count, .. } => *count,
            ChangeOrder::Listed(spots) => spots.len(),
        }
    }

    /// Where the k-th of them lies. It is looked for near this chunk first, unless it is known where it was found.
    pub(crate) fn place(&self, k: usize, near: usize) -> Place
        requires { k < length (places_in self.now) }
        ensures { slice_get (places_in self.now) k ≡ Some result }
    {
        match self {
            ChangeOrder::Whole { xid, .. } => Place {
                xid: *xid,
                place: k,
                near,
            },
            ChangeOrder::Listed(spots) => {
                let spot = &spots[k];
                Place {
                    xid: spot.xid,
                    place: spot.place,
                    near: spot.near,
                }
            }
        }
    }
}
