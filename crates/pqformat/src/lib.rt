//! The fields of messages, read from the front of bytes and written at the end of a buffer or into a slice; and texts in quotes,
//! in which a quote that is meant stands twice, and numbers in digits.
//!
//! `Cursor` lends the fields of a body one after the other, or says why the next isn't there; `write_` calls add fields at the
//! end of a buffer, and `put_` calls put them into room that is there already. `Text` and `Items` are the text and the list that
//! messages own.
//!
//! Read `cursor.rt`, `write.rt`, then `text.rt`; `put.rt` is `write.rt` without memory; `quoted.rt` and `decimal.rt` are apart. Above, each reader
//! and writer of a message stands on one contract of each field: what `Cursor` gives are the bytes that the call of the same
//! name writes, and after a fault nothing has moved.
#![tactic(auto)]

mod cursor;
mod decimal;
mod items;
mod put;
mod quoted;
mod text;
mod write;

pub use cursor::{Cursor, utf8_of};
pub use decimal::decimal_of;
pub use items::Items;
pub use put::{put_byte, put_bytes, put_int16, put_int32, put_int64, put_string, whole_or_nothing};
pub use quoted::{nothing_of, quoted_bytes};
pub use text::Text;
pub use write::{write_byte, write_bytes, write_int16, write_int32, write_int64};
