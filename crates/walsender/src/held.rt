//! What a sender holds, and how that goes out.

pub(crate) mod committed_transaction;
pub(crate) mod draining;
pub(crate) mod filling;
pub(crate) mod outgoing;
