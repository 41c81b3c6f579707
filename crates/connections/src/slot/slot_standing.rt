//! What of a slot outlives its server, where its log is kept.

use pqformat::Text;

/// How a slot stands at one moment.
#[derive(Drop)]
pub struct SlotStanding {
    /// How many slots were at its place, this one included: another one of its name has another number.
    pub number: u64,
    pub name: Text,
    pub confirmed: u64,
    /// It held more of the log than it may, and was given up.
    pub is_lost: bool,
}
