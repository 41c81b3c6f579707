//! The frames of a commit: its Begin, the messages of its changes, its Commit; and the words beside them.

pub(crate) mod bounds;
pub(crate) mod header;
pub(crate) mod making;
pub(crate) mod named;
pub(crate) mod publishing;
pub(crate) mod word;
