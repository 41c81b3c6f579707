//! A log that is kept on a disk: how far it is, who waits for that, and how it goes on by what a server before has left.

pub(crate) mod awaiting;
pub(crate) mod disk_fault;
pub(crate) mod disk_state;
pub(crate) mod durability;
pub(crate) mod identity;
pub(crate) mod keeper_place;
pub(crate) mod keeping_on;
pub(crate) mod recovering;
pub(crate) mod slot_journal;
