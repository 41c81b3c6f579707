//! The name of a session's database.

ghost use Rattle.std.specs.Prelude.{◌≡◌, ◌≤◌, length};

use pqformat::Text;
use std::marker::Model;

/// The longest name of a database, in bytes: no startup has room for a longer one.
pub(crate) const MOST_DATABASE_BYTES: usize = 10_000;

/// The name of the database that a client asked for. Contracts see its bytes.
#[derive(Drop)]
pub(crate) struct Database {
    name: Text,
}

impl Model for Database {
    ghost use Rattle.std.specs.Prelude.{List, ℕ, ◌≤◌, length};
    ghost use Rattle.server.specs.declared.asked.database.TheConstants.{MOST_DATABASE_BYTES};

    ghost Value = { List ℕ };

    ghost view = { λ d. d.name };

    ghost invariant = { λ d. length d.name ≤ MOST_DATABASE_BYTES };
}

impl Database {
    pub(crate) fn new(name: Text) -> Self
        requires { length name ≤ MOST_DATABASE_BYTES }
        ensures { result ≡ name }
    {
        Database { name }
    }

    pub fn as_str(&self) -> &str
        ensures value { result.now ≡ self.now }
        ensures short { length result.now ≤ MOST_DATABASE_BYTES }
    {
        self.name.as_str()
    }
}
