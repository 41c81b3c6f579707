//! Transactions in progress, and the hold on one.

pub(crate) mod live;
pub(crate) mod rowless;
pub(crate) mod running;
pub(crate) mod savepoint;
pub(crate) mod tx;
