//! A slot that has a name.

ghost use Rattle.std.specs.Prelude.{◌≡◌};

use pqformat::Text;

/// What is kept of a slot (PostgreSQL 15, 49.2.2) beside its place in the table.
#[derive(Drop)]
pub struct Slot {
    pub(crate) name: Text,
    pub(crate) place: usize,
    pub(crate) confirmed: u64,
}

impl Slot {
    pub fn name(&self) -> &str
        ensures { result.now ≡ self.now.name }
    {
        self.name.as_str()
    }

    /// The confirmed position.
    pub fn confirmed(&self) -> u64
        ensures { result ≡ self.now.confirmed }
    {
        self.confirmed
    }
}
