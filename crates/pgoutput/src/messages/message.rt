//! Message, what was said in the log beside the changes of tables: its type, its reader and its writer.

ghost use Rattle.std.specs.Prelude.{◌≡◌};
ghost use Rattle.pqformat.specs.Putting.{Puts};
ghost use Rattle.pgoutput.specs.Reading.{Gives};
ghost use Rattle.pgoutput.specs.Message.{content_at, message, message_at, message_flags, HasShortContent};

use crate::fault::PgoutputError;
use crate::parts::fields::{count32_of, name_of, number64_of};
use crate::parts::letter::told_of;
use bytes::BytesMut;
use pqformat::{Cursor, Items, Text, put_byte, put_bytes, put_int32, put_int64, put_string};
use std::alloc::{AllocError, Global};

/// The kind byte of Message.
pub const MESSAGE: u8 = b'M';

/// The flags of a message that is sent with its transaction, and of one that stands by itself.
pub const TRANSACTIONAL: u8 = 1;

pub const NOT_TRANSACTIONAL: u8 = 0;

/// Message (PostgreSQL 15, 55.9), which `pg_logical_emit_message` writes into the log.
///
/// ```text
/// Byte1('M') | Int8 flags, 1: is_transactional | Int64 position | String prefix | Int32 length | Byten content
/// ```
#[derive(Debug, Drop, PartialEq)]
pub struct Message {
    /// Whether it belongs to a transaction, and is told with it.
    pub is_transactional: bool,
    /// The position at which the message's record starts.
    pub position: u64,
    /// Whose message it is, as its readers agreed.
    pub prefix: Text,
    pub content: Items<u8>,
}

/// The fields of Message, which stand after its kind byte; or the leftmost fault: `Short` (O1) where they aren't there whole,
/// `BadMark` (O3) at flags that are neither 0 nor 1, or at a length with its top bit set, `BadText` (O4) at a prefix that isn't
/// UTF-8. Or `Memory` (O6).
#[tactic(auto, unfolding(crate::specs::Message::message_at))]
pub fn message_of(alloc: Global, cursor: &mut Cursor<'_>) -> Result<Message, PgoutputError>
    ensures { Gives result cursor.new (message_at cursor.old) }
{
    let is_transactional = told_of::<bool>(cursor)?;
    let position = number64_of(cursor)?;
    let prefix = name_of(alloc, cursor)?;
    let content = content_of(alloc, cursor)?;
    Ok(Message {
        is_transactional,
        position,
        prefix,
        content,
    })
}

/// The bytes after a length, whatever they are.
#[tactic(auto, unfolding(crate::specs::Message::content_at))]
fn content_of(alloc: Global, cursor: &mut Cursor<'_>) -> Result<Items<u8>, PgoutputError>
    ensures { Gives result cursor.new (content_at cursor.old) }
{
    let len = count32_of(cursor)?;
    let bytes = cursor.take(len as usize).ok_or(PgoutputError::Short)?;
    Ok(Items::new(Vec::from_slice(alloc, bytes)?))
}

/// Adds the fields of Message, after its kind byte. `AllocError` where memory is refused; some of them may have been added
/// then.
#[tactic(auto, using(pqformat::proofs::Putting::in_place))]
pub fn put_message(out: &mut BytesMut, told: &Message) -> Result<(), AllocError>
    requires { HasShortContent told.now }
    ensures { Puts result out.old.items out.new.items (message told.now) }
{
    put_byte(out, message_flags(told.is_transactional))?;
    put_int64(out, told.position)?;
    put_string(out, told.prefix.as_str())?;
    put_int32(out, told.content.len() as u32)?;
    put_bytes(out, told.content.as_slice())?;
    Ok(())
}

/// The flags that say whether a message belongs to a transaction.
pub fn message_flags(is_transactional: bool) -> u8
    ensures { result ≡ message_flags is_transactional }
{
    if is_transactional {
        TRANSACTIONAL
    } else {
        NOT_TRANSACTIONAL
    }
}
