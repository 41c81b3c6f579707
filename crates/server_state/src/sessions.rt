//! What whoever builds a service writes: transactions, and messages outside of them.

pub(crate) mod change_fault;
pub(crate) mod changing;
pub(crate) mod ended;
pub(crate) mod noting;
pub(crate) mod transaction;
pub(crate) mod writing;
