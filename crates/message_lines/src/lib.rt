//! The messages of a stream as lines: of text, for people to read, and of JSON, as users of wal2json know them, with which of
//! those end a transaction.
//!
//! `render` writes a message as text; `insert_line` to `summary_line` write lines of JSON, over the values of `parts/values.rt` and
//! the members of `parts/members.rt`; `end_of` finds the position that a line of JSON ends at.
//!
//! Read `marks.rt`, `changes.rt`, `telling/ending.rt`, then `rendering.rt`. Above, `follower` uses two laws: a reader of JSON finds each
//! value again (`lines_tell_what_was_written`), and a line ends a transaction exactly where it says so
//! (`lines_tell_where_they_end`).
#![tactic(auto)]

mod changes;
mod fault;
mod marks;
mod parts;
mod rendering;
mod telling;

pub use changes::{delete_line, insert_line, truncate_line, update_line};
pub use fault::LineFault;
pub use marks::{begin_line, commit_line, message_line, summary_line};
pub use rendering::render;
pub use telling::ending::{behind, end_of};
pub use telling::fronts::{begins_one, is_change_line, is_note_line};
pub use telling::laws::{
    lines_begin_with_what_they_tell, lines_tell_what_was_written, lines_tell_where_they_end,
};
