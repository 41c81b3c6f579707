//! A session before its stream: its blocks and its queries.

pub(crate) mod block;
pub(crate) mod block_query;
pub(crate) mod in_block;
pub(crate) mod session;
