//! A slot as a file of the log keeps it.

use pqformat::Text;

/// How a slot stands.
#[derive(Debug, Drop)]
pub struct KeptSlot {
    pub name: Text,
    /// The user that made it, where it had to prove its password.
    pub owner: Option<Text>,
    /// Up to where its client has confirmed.
    pub confirmed: u64,
    /// It held more of the log than it may, and was given up.
    pub is_lost: bool,
}
