//! The bodies of the streaming replication protocol that stand inside CopyData in the copy-both state: their writers and
//! readers.
//!
//! A file for each body: `xlogdata.rt`, `keepalive.rt` and `status.rt`. `server_body.rt` tells the two of the server apart,
//! `fields.rt` has the fields that they share, and `clock.rt` the clock that they carry.
//!
//! Above, one contract of each is used: what `write_xlogdata`, `write_keepalive` and `write_status` add is what `read_server`
//! and `read_client` find, and nothing else is found.
#![tactic(auto, using(pqformat::proofs::Putting::in_place))]

mod clock;
mod fault;
mod fields;
mod keepalive;
mod server_body;
mod status;
mod xlogdata;

pub use clock::{clock_now, clock_of};
pub use fault::CopyFault;
pub use keepalive::{ASKS, KEEPALIVE, Keepalive, SILENT, write_keepalive};
pub use server_body::{ServerBody, read_server};
pub use status::{STATUS, Status, read_client, write_status};
pub use xlogdata::{XLOGDATA, XLogData, write_xlogdata};
