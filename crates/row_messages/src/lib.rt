//! Tables and their rows as messages: the Relation of a table, and the Insert, Update and Delete of its rows, under a column list.
//!
//! `put_table` writes a Relation, and `put_insertion`, `put_replacement` and `put_deletion` the messages of a row that lies in
//! bytes, into room that is there; `room.rt` says how much that is at most.
//!
//! Read `tuples.rt`, then `put_messages.rt`. Above, `publication` uses one contract: what is put is the message of the projected
//! row, in its spelling, and it fits within a frame.
#![tactic(auto)]

mod kinds;
mod put_messages;
mod put_relation;
mod room;
mod tuples;

pub use put_messages::{put_deletion, put_insertion, put_replacement};
pub use put_relation::put_table;
pub use room::{MAX_MESSAGE_LENGTH, room_for};
