//! What lines tell those who read them.

pub(crate) mod ending;
pub(crate) mod fronts;
pub(crate) mod kinds;
pub(crate) mod laws;
