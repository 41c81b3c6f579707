//! A change as a record holds it.

ghost use Rattle.std.specs.Prelude.{◌≡◌, ◌≤◌, IfOk};
ghost use Rattle.tables.specs.declared.changes.change_body.TheConstants.{MAX_BODY_LENGTH};
ghost use Rattle.tables.specs.Reading.{IsCoded, SpellsBody};
ghost use Rattle.tables.specs.Spelling.{IsShort, body_length};

use bytes::BytesMut;
use std::alloc::{AllocError, Global};
use std::marker::Model;
use tables::{Change, body_len, write_body};

/// A change whose rows are at most 8,000 bytes long, or which truncates at most 256 tables, or a message of at most 63 and 8,000
/// bytes, written as the log keeps it: in one piece of at most 16,005 bytes, from which it can be read again. Contracts see the change.
#[derive(Debug, Drop)]
pub struct LoggedChange {
    body: Vec<u8>,
}

impl Model for LoggedChange {
    ghost use Rattle.tables.specs.declared.changes.change.Change.{Change as Held};
    ghost use Rattle.tables.specs.Reading.{SpellsBody};
    ghost use Rattle.tables.specs.Spelling.{IsShort};
    ghost use Rattle.wal.specs.Bodies.{change_in};

    ghost Value = { Held };

    ghost view = { λ l. change_in l.body.items };

    ghost invariant = { λ l. SpellsBody l.body.items (change_in l.body.items)
        × IsShort (change_in l.body.items) };
}

impl LoggedChange {
    /// The change, which is known to be one that a record can hold. `AllocError` where memory for it is refused.
    pub fn of(alloc: Global, change: &Change) -> Result<Self, AllocError>
        requires short { IsShort change.now }
        requires coded { IsCoded change.now }
        ensures { IfOk result (λ logged. logged ≡ change.now) }
    {
        let mut body = BytesMut::with_capacity(alloc, body_len(change))?;
        write_body(change, &mut body)?;
        match body.into_vec() {
            Ok(body) => Ok(LoggedChange { body }),
            Err(_) => Err(AllocError),
        }
    }

    /// Its body, as `write_body` of `tables` writes it.
    pub fn body(&self) -> &[u8]
        ensures spells { SpellsBody result.now self.now }
        ensures short { IsShort self.now }
    {
        self.body.as_slice()
    }

    /// The length of its body in bytes.
    pub fn body_len(&self) -> usize
        ensures value { result ≡ body_length self.now }
        ensures bounded { result ≤ MAX_BODY_LENGTH }
    {
        self.body.len()
    }
}
