//! The places where slots are made next.

ghost use Rattle.std.specs.Prelude.{◌≡◌, ◌+◌, ◌<◌, IfSome};
ghost use Rattle.slots.specs.declared.table.TheConstants.{END_OF_PLACES, LINES};

use slots::{END_OF_PLACES, LINES};
use std::alloc::{AllocError, Global};

/// A place where a slot may be made.
#[derive(Clone, Copy, Drop)]
pub(crate) struct FreePlace {
    pub place: usize,
    ghost within: { place < END_OF_PLACES },
}

impl FreePlace {
    fn at(place: usize) -> Option<Self>
        ensures { IfSome result (λ free. free.place ≡ place) }
    {
        if place < END_OF_PLACES {
            Some(FreePlace { place })
        } else {
            None
        }
    }

    /// The one that comes after it on its line, once its slot was dropped.
    pub fn next(self) -> Option<Self>
        ensures { IfSome result (λ free. free.place ≡ self.place + LINES) }
    {
        FreePlace::at(self.place + LINES)
    }
}

/// The first places of so many lines. `AllocError` where memory is refused.
pub(crate) fn first_places(alloc: Global, lines: usize) -> Result<Vec<FreePlace>, AllocError> {
    let mut places = Vec::with_capacity(alloc, lines)?;
    for line in 0..lines {
        if let Some(place) = FreePlace::at(lines - 1 - line) {
            places.push(place)?;
        }
    }
    Ok(places)
}
