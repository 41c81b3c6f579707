//! Messages that stand in the log beside the changes of tables.

ghost use Rattle.std.specs.Prelude.{[], ◌≡◌, ◌≢◌, ℕ, List, IfErr, IfNone, IfOk, IfSome, Ok, Err};
ghost use Rattle.tables.specs.Kinds.{sized_at};
ghost use Rattle.tables.specs.Reading.{message_at, prefix_at};
ghost use Rattle.tables.specs.Refs.{message_of};
ghost use Rattle.tables.specs.Tables.{is_prefix};
ghost use Rattle.tables.specs.declared.fault.BodyFault.TheVariants.{Memory};
ghost use Rattle.tables.specs.declared.changes.message.Message.{Message as Held};

use crate::fault::BodyFault;
use crate::kinds::is_without_zero;
use pqformat::{Cursor, Items, Text, utf8_of};
use std::alloc::{AllocError, Global};

/// The longest prefix of a message, in bytes.
pub const MAX_PREFIX_LENGTH: usize = 63;

/// The longest content of a message, in bytes.
pub const MAX_CONTENT_LENGTH: usize = 8_000;

/// A message to those who read the log. It changes no row. PostgreSQL writes one by `pg_logical_emit_message` (manual of version
/// 15, 9.27.6).
#[derive(Debug, Drop)]
pub struct Message {
    /// Which readers it is for: in the log at most 63 bytes, none of which is zero.
    pub prefix: Text,
    /// Any bytes, in the log at most 8,000.
    pub content: Items<u8>,
}

impl Message {
    /// A message of copies of both; `AllocError` where memory for them is refused.
    pub fn copy_of(alloc: Global, prefix: &str, content: &[u8]) -> Result<Self, AllocError>
        ensures { IfOk result (λ m. (m.prefix ≡ prefix.now) × (m.content ≡ content.now)) }
    {
        let prefix = Text::copy_of(alloc, prefix)?;
        let content = Vec::from_slice(alloc, content)?;
        Ok(Message {
            prefix,
            content: Items::new(content),
        })
    }
}

/// Whether a message may have this prefix: at most 63 bytes, none of which is zero.
pub fn is_prefix(text: &str) -> bool
    ensures { result ≡ is_prefix text.now }
{
    let bytes = text.as_bytes();
    bytes.len() <= MAX_PREFIX_LENGTH && is_without_zero(bytes)
}

/// A message, where it lies.
#[derive(Clone, Copy)]
pub struct MessageRef<'a> {
    pub prefix: &'a str,
    pub content: &'a [u8],
}

/// The message of which these bytes are the spelling, without the tag of its body. None where they are that of none.
pub fn lend_message(bytes: &[u8]) -> Option<MessageRef<'_>>
    ensures found { IfSome result (λ m. message_at bytes.now ≡ Ok (message_of m, [])) }
    ensures none { IfNone result ((m : Held) → message_at bytes.now ≡ Ok (m, []) → ⊥) }
{
    let mut cursor = Cursor::new(bytes);
    match message_in(&mut cursor) {
        Ok(message) if cursor.rest().is_empty() => Some(message),
        _ => None,
    }
}

#[tactic(auto, unfolding(crate::specs::Reading::message_at))]
pub(crate) fn message_in<'a>(cursor: &mut Cursor<'a>) -> Result<MessageRef<'a>, BodyFault>
    ensures found { IfOk result (λ m. message_at cursor.old ≡ Ok (message_of m, cursor.new)) }
    ensures fails { IfErr result (λ fault. message_at cursor.old ≡ Err fault) }
    ensures no_memory { result ≢ Err Memory }
{
    let prefix = prefix_in(cursor)?;
    let content = content_in(cursor)?;
    Ok(MessageRef { prefix, content })
}

#[tactic(auto, unfolding(crate::specs::Reading::prefix_at))]
fn prefix_in<'a>(cursor: &mut Cursor<'a>) -> Result<&'a str, BodyFault>
    ensures found { IfOk result (λ text. prefix_at cursor.old ≡ Ok (text.now, cursor.new)) }
    ensures fails { IfErr result (λ fault. prefix_at cursor.old ≡ Err fault) }
    ensures no_memory { result ≢ Err Memory }
{
    let len = cursor.u16().ok_or(BodyFault::Short)?;
    let bytes = cursor.take(usize::from(len)).ok_or(BodyFault::Short)?;
    utf8_of(bytes).ok_or(BodyFault::BadText)
}

fn content_in<'a>(cursor: &mut Cursor<'a>) -> Result<&'a [u8], BodyFault>
    ensures found { IfOk result (λ content. sized_at cursor.old ≡ Ok (content.now, cursor.new)) }
    ensures fails { IfErr result (λ fault. sized_at cursor.old ≡ Err fault) }
    ensures no_memory { result ≢ Err Memory }
{
    let len = cursor.u32().ok_or(BodyFault::Short)?;
    cursor.take(len as usize).ok_or(BodyFault::Short)
}
