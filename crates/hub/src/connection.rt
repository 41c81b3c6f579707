//! A connection: the two threads that serve it, and its backend.

pub(crate) mod backend;
pub(crate) mod read_loop;
pub(crate) mod session_copies;
pub(crate) mod write_loop;
