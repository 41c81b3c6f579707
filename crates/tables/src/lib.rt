//! Tables and their rows, and the changes of rows and the messages as the log keeps them.
//!
//! `Table` has columns and says which rows it takes; `Row` is a row, `RowRef` one that lies in bytes, `Change` and `changes/message.rt`
//! what a session writes. `changes/change_body.rt` writes a change's body as the log keeps it, and `changes/change_reading.rt` reads one;
//! `kinds.rt` has the kinds of columns.
//!
//! Read `column.rt`, `table.rt`, `rows/row.rt`, then `changes/change.rt` and `changes/change_body.rt`. Above, two contracts are used: `Table::takes`
//! says which rows enter, and `read_body` finds a change exactly if the bytes spell it, so that what comes out of the log is
//! what went in.
#![tactic(auto)]

mod changes;
mod column;
mod fault;
mod identity;
mod kinds;
mod rows;
mod table;

pub use changes::change::Change;
pub use changes::change_body::{
    DELETE_TAG, INSERT_TAG, MAX_BODY_LENGTH, MAX_TRUNCATED, MESSAGE_TAG, TRUNCATE_TAG, UPDATE_TAG,
    body_len, write_body,
};
pub use changes::change_reading::read_body;
pub use changes::message::{
    MAX_CONTENT_LENGTH, MAX_PREFIX_LENGTH, Message, MessageRef, is_prefix, lend_message,
};
pub use changes::oids::repeats;
pub use column::Column;
pub use fault::BodyFault;
pub use identity::Identity;
pub use kinds::{Kind, Value, ValueRef, is_without_zero, write_value};
pub use rows::lending::lend_oids;
pub use rows::row::{MAX_ROW_LENGTH, Row};
pub use rows::row_ref::RowRef;
pub use rows::uuids::{uuid_of_halves, uuid_of_text};
pub use table::{MAX_COLUMNS, MAX_NAME_LENGTH, Table};
