//! A message outside of transactions, which is whole by itself.

ghost use Rattle.std.specs.Prelude.{◌≡◌, IfOk};
ghost use Rattle.client.specs.Subscriber.{note_of};

use pgoutput::{Logical, Message, Published, PublishedChange};
use pqformat::Items;
use std::alloc::{AllocError, Global};

/// The note as it is applied: its message is its one change, and it has neither time nor xid.
pub(crate) fn note_of(alloc: Global, end: u64, message: Message) -> Result<Published, AllocError>
    ensures { IfOk result (λ t. t ≡ note_of end message) }
{
    let start = message.position;
    let change = PublishedChange {
        position: start,
        message: Logical::Message(message),
    };
    Ok(Published {
        is_note: true,
        start,
        end,
        time: 0,
        xid: 0,
        changes: Items::new(vec![in alloc; change]?),
    })
}
