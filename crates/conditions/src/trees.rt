//! From words to a tree.

pub(crate) mod joint;
pub(crate) mod parser_state;
pub(crate) mod part;
pub(crate) mod pending;
pub(crate) mod tightness;
