//! The messages of pgoutput, protocol version 1: each one's fields, the whole message, and what a stream of published transactions
//! is, with the law that it is read back in one way.
//!
//! A file for each message (`messages/begin.rt` to `messages/truncate.rt`), each with its fields, its letter, its reader and its writer.
//! `logical.rt` tells them apart by their letters. `copy_both_message.rt` has what a server says in a stream, and `published.rt` a
//! transaction as a stream carries it.
//!
//! Read `messages/insert.rt` and `parts/tuple.rt`, then `logical.rt`, then `reading.rt` with specs/Stream.antt. Above, the definition of a
//! stream's encoding is used everywhere, with its law `a_stream_has_one_reading`; and of a message that `read_logical` finds
//! exactly what its writer adds.
#![tactic(auto)]

mod copy_both_message;
mod fault;
mod logical;
mod messages;
mod parts;
mod published;
mod reading;
mod round_trip;

pub use copy_both_message::{CopyBothMessage, Keepalive, XLogData};
pub use fault::PgoutputError;
pub use logical::{
    Logical, a_message_is_its_fields, no_message_goes_on, no_message_has_two_spellings,
    read_logical, write_logical,
};
pub use messages::begin::{BEGIN, Begin, begin_of, put_begin};
pub use messages::commit::{COMMIT, COMMIT_FLAGS, Commit, commit_of, put_commit};
pub use messages::delete::{DELETE, Delete, delete_of, put_delete};
pub use messages::insert::{INSERT, Insert, NEW, insert_of, put_insert};
pub use messages::message::{
    MESSAGE, Message, NOT_TRANSACTIONAL, TRANSACTIONAL, message_flags, message_of, put_message,
};
pub use messages::relation::{
    Column, IDENTITY_DEFAULT, IDENTITY_FULL, IDENTITY_INDEX, IDENTITY_NOTHING, Identity, KEY_FLAG,
    NO_FLAG, RELATION, Relation, put_relation, relation_of,
};
pub use messages::truncate::{
    CASCADE, CASCADE_AND_RESTART_IDENTITY, NO_OPTIONS, RESTART_IDENTITY, TRUNCATE, Truncate,
    TruncateOptions, put_truncate, truncate_of,
};
pub use messages::update::{UPDATE, Update, put_update, update_of};
pub use parts::old_tuple::{KEY, OLD, OldTuple};
pub use parts::tuple::{Cell, NULL, TEXT, UNCHANGED};
pub use published::{Published, PublishedChange};
pub use reading::a_stream_has_one_reading;
pub use round_trip::written_and_read;
