//! The text by which a system names itself.

ghost use Rattle.std.specs.Prelude.{◌≡◌, ◌<◌, ◌≤◌, ◌^◌, length, MatchOption};

use pqformat::Text;

/// The most bytes of a system's name, with which it fits its row in any case.
pub const MOST_NAME_BYTES: usize = 65_535;

/// The text by which a system names itself to clients.
#[derive(Drop)]
pub struct SystemName {
    text: Text,
    ghost short: { length text < 2 ^ 16 },
}

impl SystemName {
    /// None where the text is too long.
    pub fn new(text: Text) -> Option<Self>
        ensures { MatchOption result (2 ^ 16 ≤ length text) (λ name. name.text ≡ text) }
    {
        if text.as_str().len() > MOST_NAME_BYTES {
            return None;
        }
        Some(SystemName { text })
    }

    pub fn as_str(&self) -> &str
        ensures value { result.now ≡ self.now.text }
        ensures short { length result.now < 2 ^ 16 }
    {
        self.text.as_str()
    }
}
