//! Sockets: who comes, what is read, and what is written.

pub(crate) mod arrival;
pub(crate) mod commit_counter;
pub(crate) mod crowd;
pub(crate) mod listening;
pub(crate) mod metered_writer;
pub(crate) mod outlet;
pub(crate) mod reading;
pub(crate) mod sockets;
