//! Messages of the log, sent to streams that ask for them.
#![tactic(auto, using(row_messages::proofs::Written::sizes))]

ghost use Rattle.std.specs.Prelude.{◌≡◌, ◌+◌, ◌≤◌, [], IfSome, Ok, Some, length};
ghost use Rattle.pgoutput.specs.Logical.{spell_logical};
ghost use Rattle.pgoutput.specs.Message.{message_flags};
ghost use Rattle.pgoutput.specs.declared.logical.Logical.{Logical as Meant};
ghost use Rattle.tables.specs.Reading.{SpellsBody, change_tagged, message_at};
ghost use Rattle.tables.specs.Refs.{message_of};
ghost use Rattle.tables.specs.declared.changes.change.Change.{Change as Changed};
ghost use Rattle.tables.specs.declared.changes.message.Message.{Message as Held};
ghost use Rattle.publication.specs.Logged.{IsNoteAt, fits_log, note_message, logged_message, told_of};
ghost use Rattle.pqformat.specs.Writing.{FitsRoom, Writes};
ghost use Rattle.row_messages.specs.Spelling.{HasRoomFor, IsPut, IsWritten};
ghost use Rattle.publication.specs.Read.{IsReadWhole};

use crate::selection::Selection;
use pgoutput::{MESSAGE, message_flags};
use pqformat::{write_byte, write_bytes, write_int32, write_int64};
use row_messages::MAX_MESSAGE_LENGTH;
use tables::{MAX_CONTENT_LENGTH, MESSAGE_TAG, MessageRef, is_prefix, lend_message};

impl Selection {
    /// Writes the message of the note whose body these bytes are, and whose record starts at the position, to the front of `out`, and
    /// answers how long it is. None where no messages were asked for, and where the bytes are no body of a message. It takes no memory.
    pub fn put_note(&self, position: u64, body: &[u8], out: &mut [u8]) -> Option<usize>
        requires { MAX_MESSAGE_LENGTH ≤ length out.old }
        ensures message { (c : Changed) → SpellsBody body.now c →
            IsPut result out.new (note_message self.now position c) }
        ensures fits { (c : Changed) (m : Meant) → SpellsBody body.now c →
            note_message self.now position c ≡ Some m → IsNoteAt position m }
        ensures short { IfSome result (λ n. n ≤ MAX_MESSAGE_LENGTH) }
        ensures same { length out.new ≡ length out.old }
    {
        let (tag, fields) = body.split_first()?;
        self.put_note_tagged(position, *tag, fields, &mut out[..MAX_MESSAGE_LENGTH])
    }

    fn put_note_tagged(
        &self,
        position: u64,
        tag: u8,
        fields: &[u8],
        out: &mut [u8],
    ) -> Option<usize>
        requires { HasRoomFor (length fields.now + 1) out.old }
        ensures told { (c : Changed) → change_tagged tag fields.now ≡ Ok (c, []) →
            IsWritten result out.old out.new (note_message self.now position c) }
        ensures short { IfSome result (λ n. n ≤ MAX_MESSAGE_LENGTH) }
        ensures same { length out.new ≡ length out.old }
    {
        if tag != MESSAGE_TAG {
            return None;
        }
        self.put_logged(false, position, fields, out)
    }

    /// The message of which these are the fields, with its transaction or by itself.
    pub(crate) fn put_logged(
        &self,
        is_transactional: bool,
        position: u64,
        fields: &[u8],
        out: &mut [u8],
    ) -> Option<usize>
        requires { HasRoomFor (length fields.now + 1) out.old }
        ensures told { (m : Held) → message_at fields.now ≡ Ok (m, []) →
            IsWritten result out.old out.new (logged_message is_transactional self.now position m) }
        ensures found { IfSome result (λ _. IsReadWhole (message_at fields.now)) }
        ensures short { IfSome result (λ n. n ≤ MAX_MESSAGE_LENGTH) }
        ensures same { length out.new ≡ length out.old }
    {
        if !self.messages {
            return None;
        }
        let message = lend_message(fields)?;
        if !fits_log(message) {
            return None;
        }
        Some(put_message(out, is_transactional, position, message))
    }
}

/// Whether it may stand in the log.
pub(crate) fn fits_log(message: MessageRef<'_>) -> bool
    ensures { result ≡ fits_log (message_of message.entry) }
{
    is_prefix(message.prefix) && message.content.len() <= MAX_CONTENT_LENGTH
}

fn put_message(
    out: &mut [u8],
    is_transactional: bool,
    position: u64,
    message: MessageRef<'_>,
) -> usize
    requires { FitsRoom 0 out.old
        (spell_logical (told_of is_transactional position (message_of message))) }
    ensures { Writes 0 result out.old out.new
        (spell_logical (told_of is_transactional position (message_of message.entry))) }
{
    let kind = write_byte(out, 0, MESSAGE);
    let flags = write_byte(out, kind, message_flags(is_transactional));
    let placed = write_int64(out, flags, position);
    let named = write_bytes(out, placed, message.prefix.as_bytes());
    let ended = write_byte(out, named, 0);
    let counted = write_int32(out, ended, message.content.len() as u32);
    write_bytes(out, counted, message.content)
}
