//! What a session changed in the tables, or said to the readers of the log.

use crate::changes::message::Message;
use crate::rows::row::Row;
use pqformat::Items;

/// A change of tables, by their OIDs, or a message, which stands where a change would.
#[derive(Debug, Drop)]
pub enum Change {
    /// The table and its new row.
    Insert(u32, Row),
    /// The table, the row that was there, and the row in its place.
    Update(u32, Row, Row),
    /// The table and the row that was there.
    Delete(u32, Row),
    /// The tables that were emptied, in the order of the call.
    Truncate(Items<u32>),
    /// What is told to those who read the log. No table is changed.
    Message(Message),
}
