//! Messages that transactions make: they change no row and hold nothing.

ghost use Rattle.std.specs.Prelude.{◌≡◌, ◌++◌, ◌∷◌, [], IfErr, IfOk, List, None, OnErr, OnOk};
ghost use Rattle.store.specs.History.{Made, change_made, message_fault};
ghost use Rattle.store.specs.Keeping.{IsSame, Keeps, Makes, RefusedExactly, RefusedOrMemory};
ghost use Rattle.tables.specs.Spelling.{IsShort};
ghost use Rattle.tables.specs.Tables.{FitsChange, FitsMessage};

use crate::store::Store;
use crate::store_fault::StoreFault;
use pqformat::Items;
use std::alloc::{AllocError, Global};
use tables::{Change, MAX_CONTENT_LENGTH, Message, is_prefix};

/// A message that may stand in the log. Refused in this order: `BadPrefix` (S13), `TooLarge` (S6) where its content is, `Memory`
/// (S11).
pub fn message_of(alloc: Global, prefix: &str, content: &[u8]) -> Result<Message, StoreFault>
    ensures value { IfOk result (λ m. m ≡ record { prefix = prefix.now; content = content.now }) }
    ensures fits { IfOk result FitsMessage }
    ensures refused { RefusedOrMemory (message_fault prefix.now content.now) result }
{
    match judge(prefix, content) {
        Ok(()) => Ok(Message::copy_of(alloc, prefix, content)?),
        Err(fault) => Err(fault),
    }
}

#[tactic(auto, using(pqformat::proofs::Texts::valid_text))]
fn judge(prefix: &str, content: &[u8]) -> Result<(), StoreFault>
    ensures fits { OnOk result
        (FitsMessage (record { prefix = prefix.now; content = content.now })) }
    ensures refused { RefusedExactly (message_fault prefix.now content.now) result }
{
    if !is_prefix(prefix) {
        return Err(StoreFault::BadPrefix);
    }
    if content.len() > MAX_CONTENT_LENGTH {
        return Err(StoreFault::TooLarge);
    }
    Ok(())
}

impl Store {
    /// Makes a message, which is undone with the changes after which it stands. Refused in this order: `BadPrefix` (S13),
    /// `TooLarge` (S6) where its content is, `Memory` (S11).
    pub fn message(&mut self, top: u32, prefix: &str, content: &[u8]) -> Result<Change, StoreFault>
        ensures change { IfOk result
            (λ change. change
            ≡ Change.Message (record { prefix = prefix.now; content = content.now })) }
        ensures fits { IfOk result (λ change. FitsChange self.old.tables change) }
        ensures short { IfOk result IsShort }
        ensures ok { OnOk result
            ((history : List Made) → Keeps self.old history →
            Keeps self.new
            (history
            ++ change_made top
            (Change.Message (record { prefix = prefix.now; content = content.now }))
            ∷ [])) }
        ensures err { OnErr result
            ((history : List Made) → Keeps self.old history → Keeps self.new history) }
        ensures refused { RefusedOrMemory (message_fault prefix.now content.now) result }
        ensures tables { self.new.tables ≡ self.old.tables }
    {
        match message_of(self.alloc, prefix, content) {
            Ok(message) => {
                self.note_nothing(top)?;
                Ok(Change::Message(message))
            }
            Err(fault) => Err(fault),
        }
    }

    /// Notes a change of no place.
    fn note_nothing(&mut self, top: u32) -> Result<(), AllocError>
        ensures ok { OnOk result (Makes top [] self.old self.new) }
        ensures err { OnErr result (IsSame self.old self.new) }
    {
        self.note(top, Items::new(Vec::new(self.alloc)))
    }
}
