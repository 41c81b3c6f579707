//! What a place of a slot says.

pub(crate) mod slot_word;
pub(crate) mod standing;
pub(crate) mod step;
pub(crate) mod words;
