//! Which texts are sent of each type, one a file.

pub(crate) mod bytea;
pub(crate) mod calendar;
pub(crate) mod characters;
pub(crate) mod clock;
pub(crate) mod decimal;
pub(crate) mod digits;
pub(crate) mod integer;
pub(crate) mod moment;
pub(crate) mod truth;
pub(crate) mod uuid_text;
