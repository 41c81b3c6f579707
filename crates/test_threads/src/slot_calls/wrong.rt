//! What goes wrong at a slot.

use slots::SlotFault;

/// What a thread saw that no thread may see.
#[derive(Clone, Copy, Debug)]
pub enum Wrong {
    /// An answer that this call doesn't have, or not here.
    Answer(SlotFault),
    /// A position below one that was seen there.
    WentBack,
}
