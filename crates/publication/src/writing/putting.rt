//! The message of a change, written straight from the body that the log keeps.

ghost use Rattle.std.specs.Prelude.{◌≡◌, ◌+◌, ◌<◌, ◌≤◌, ◌^◌, [], ℕ, List, IfSome, Ok, Some, length};
ghost use Rattle.tables.specs.Reading.{SpellsBody, change_tagged, insert_at, update_at};
ghost use Rattle.tables.specs.declared.changes.change.Change.{Change as Changed};
ghost use Rattle.tables.specs.declared.kinds.Value.{Value as Datum};
ghost use Rattle.pgoutput.specs.declared.logical.Logical.{Logical};
ghost use Rattle.publication.specs.Logged.{change_message};
ghost use Rattle.publication.specs.Projection.{MessageFits, message};
ghost use Rattle.row_messages.specs.Spelling.{HasRoomFor, IsPut, IsWritten, room_for};
ghost use Rattle.publication.specs.Read.{IsReadWhole, IsShortRow};
ghost use Rattle.tables.specs.Spelling.{row_length};

use crate::rows::row_reading::{one_row, two_rows};
use crate::selection::Selection;
use crate::writing::messages::put_update;
use publication_config::Operation;
use row_messages::{put_deletion, put_insertion, room_for};
use tables::{DELETE_TAG, INSERT_TAG, MESSAGE_TAG, RowRef, TRUNCATE_TAG, UPDATE_TAG};

impl Selection {
    /// Writes the message of the change whose body these bytes are, and whose record starts at the position, to the front of `out`, and
    /// answers how long it is. None where the change has no message, and where the bytes are the body of none that the catalogue's tables
    /// have. It takes no memory. `room_for` tells how much room it asks for.
    pub fn put(&self, position: u64, body: &[u8], out: &mut [u8]) -> Option<usize>
        requires { room_for (length body.now) ≤ length out.old }
        ensures message { (c : Changed) → SpellsBody body.now c →
            IsPut result out.new (change_message self.now position c) }
        ensures fits { (c : Changed) (m : Logical) → SpellsBody body.now c →
            change_message self.now position c ≡ Some m → MessageFits self.now m }
        ensures found { IfSome result (λ _. (c : Changed) × SpellsBody body.now c) }
        ensures same { length out.new ≡ length out.old }
    {
        // All tables fit: here the prover learns it.
        let _ = &self.tables;
        let (tag, fields) = body.split_first()?;
        self.put_tagged(position, *tag, fields, &mut out[..room_for(body.len())])
    }

    /// A law: the message of each change whose record starts at a position of 64 bits fits its fields and a frame, and names tables of
    /// the selection.
    pub fn messages_fit(&self)
        ensures { (position : ℕ) (body : List ℕ) (c : Changed) (m : Logical) → position < 2 ^ 64 →
            SpellsBody body c → change_message self.now position c ≡ Some m →
            MessageFits self.now m }
    {
        // All tables fit: here the prover learns it.
        let _ = &self.tables;
    }

    fn put_tagged(&self, position: u64, tag: u8, fields: &[u8], out: &mut [u8]) -> Option<usize>
        requires { HasRoomFor (length fields.now + 1) out.old }
        ensures told { (c : Changed) → change_tagged tag fields.now ≡ Ok (c, []) →
            IsWritten result out.old out.new (change_message self.now position c) }
        ensures found { IfSome result (λ _. IsReadWhole (change_tagged tag fields.now)) }
        ensures same { length out.new ≡ length out.old }
    {
        match tag {
            INSERT_TAG => self.put_inserted(fields, out),
            UPDATE_TAG => self.put_updated(fields, out),
            DELETE_TAG => self.put_deleted(fields, out),
            TRUNCATE_TAG => self.put_truncated(fields, out),
            MESSAGE_TAG => self.put_logged(true, position, fields, out),
            _ => None,
        }
    }

    /// The message of an insert, of which these are the OID and the row.
    // What a kind of change needs is on the stack for that kind alone: a row takes 1,552 bytes there.
    #[inline(never)]
    pub(crate) fn put_inserted(&self, fields: &[u8], out: &mut [u8]) -> Option<usize>
        requires { HasRoomFor (length fields.now + 1) out.old }
        ensures told { (m : ℕ × List Datum) → insert_at fields.now ≡ Ok (m, []) →
            IsWritten result out.old out.new (message self.now (Changed.Insert m.0 m.1)) }
        ensures found { IfSome result (λ _. IsReadWhole (insert_at fields.now)) }
        ensures same { length out.new ≡ length out.old }
    {
        // All tables fit: here the prover learns it.
        let _ = &self.tables;
        let mut row = RowRef::new();
        let oid = one_row(fields, &mut row)?;
        self.put_insert(oid, &row, out)
    }

    fn put_insert(&self, oid: u32, row: &RowRef<'_>, out: &mut [u8]) -> Option<usize>
        requires room { HasRoomFor (5 + row_length row.now) out.old }
        requires short { IsShortRow row.now }
        ensures told { IsWritten result out.old out.new
            (message self.now (Changed.Insert oid row.now)) }
        ensures same { length out.new ≡ length out.old }
    {
        let table = self.table(oid)?;
        if !table.takes_ref(row) || !self.passes(Operation::Insert, oid, row) {
            return None;
        }
        Some(put_insertion(out, table, self.listed(oid), row))
    }

    /// The message of an update, of which these are the OID, the old row and the new one.
    #[inline(never)]
    pub(crate) fn put_updated(&self, fields: &[u8], out: &mut [u8]) -> Option<usize>
        requires { HasRoomFor (length fields.now + 1) out.old }
        ensures told { (m : (ℕ × List Datum) × List Datum) → update_at fields.now ≡ Ok (m, []) →
            IsWritten result out.old out.new (message self.now (Changed.Update m.0.0 m.0.1 m.1)) }
        ensures found { IfSome result (λ _. IsReadWhole (update_at fields.now)) }
        ensures same { length out.new ≡ length out.old }
    {
        // All tables fit: here the prover learns it.
        let _ = &self.tables;
        let mut old = RowRef::new();
        let mut new = RowRef::new();
        let oid = two_rows(fields, &mut old, &mut new)?;
        self.put_update(oid, &old, &new, out)
    }

    fn put_update(
        &self,
        oid: u32,
        old: &RowRef<'_>,
        new: &RowRef<'_>,
        out: &mut [u8],
    ) -> Option<usize>
        requires room { HasRoomFor (5 + row_length old.now + row_length new.now) out.old }
        requires old { IsShortRow old.now }
        requires new { IsShortRow new.now }
        ensures told { IsWritten result out.old out.new
            (message self.now (Changed.Update oid old.now new.now)) }
        ensures same { length out.new ≡ length out.old }
    {
        let table = self.table(oid)?;
        if !table.takes_ref(old) || !table.takes_ref(new) {
            return None;
        }
        let old_passes = self.passes(Operation::Update, oid, old);
        let new_passes = self.passes(Operation::Update, oid, new);
        let listed = self.listed(oid);
        put_update(out, table, listed, old_passes, new_passes, old, new)
    }

    /// The message of a delete, of which these are the OID and the old row.
    #[inline(never)]
    pub(crate) fn put_deleted(&self, fields: &[u8], out: &mut [u8]) -> Option<usize>
        requires { HasRoomFor (length fields.now + 1) out.old }
        ensures told { (m : ℕ × List Datum) → insert_at fields.now ≡ Ok (m, []) →
            IsWritten result out.old out.new (message self.now (Changed.Delete m.0 m.1)) }
        ensures found { IfSome result (λ _. IsReadWhole (insert_at fields.now)) }
        ensures same { length out.new ≡ length out.old }
    {
        // All tables fit: here the prover learns it.
        let _ = &self.tables;
        let mut old = RowRef::new();
        let oid = one_row(fields, &mut old)?;
        self.put_delete(oid, &old, out)
    }

    fn put_delete(&self, oid: u32, old: &RowRef<'_>, out: &mut [u8]) -> Option<usize>
        requires room { HasRoomFor (5 + row_length old.now) out.old }
        requires short { IsShortRow old.now }
        ensures told { IsWritten result out.old out.new
            (message self.now (Changed.Delete oid old.now)) }
        ensures same { length out.new ≡ length out.old }
    {
        let table = self.table(oid)?;
        if !table.takes_ref(old) || !self.passes(Operation::Delete, oid, old) {
            return None;
        }
        put_deletion(out, table, self.listed(oid), old)
    }
}
