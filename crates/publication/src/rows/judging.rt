//! Whether a change has a message, judged from the body that the log keeps, without writing it.

ghost use Rattle.std.specs.Prelude.{◌≡◌, ◌&&◌, ◌||◌, [], ℕ, List, IfSome, Ok, is_some, true};
ghost use Rattle.std.specs.List.{list_any};
ghost use Rattle.std.specs.Option.{option_copied};
ghost use Rattle.tables.specs.Reading.{SpellsBody, change_tagged, insert_at, message_at, oids_at, update_at};
ghost use Rattle.tables.specs.Tables.{fits_table};
ghost use Rattle.tables.specs.declared.changes.change.Change.{Change as Changed};
ghost use Rattle.tables.specs.declared.kinds.Value.{Value as Datum};
ghost use Rattle.tables.specs.declared.changes.message.Message.{Message as Held};
ghost use Rattle.publication_config.specs.declared.operations.Operation.{Operation};
ghost use Rattle.publication.specs.Logged.{change_message, logged_message};
ghost use Rattle.row_messages.specs.Messages.{stands_in};
ghost use Rattle.publication.specs.Projection.{is_published, message, passes};
ghost use Rattle.row_messages.specs.Relations.{FitsTable};
ghost use Rattle.publication.specs.Selection.{whole_table};
ghost use Rattle.publication.specs.Read.{IsReadWhole};
ghost use Rattle.row_messages.specs.Tuples.{old_by};

use crate::rows::row_reading::{last_row, oid_and_row, one_row};
use crate::selection::{Selection, may_be_emptied};
use crate::writing::logged::fits_log;
use pqformat::Cursor;
use publication_config::Operation;
use tables::{
    DELETE_TAG, INSERT_TAG, Identity, MAX_TRUNCATED, MESSAGE_TAG, RowRef, TRUNCATE_TAG, Table,
    UPDATE_TAG, lend_message, lend_oids,
};

impl Selection {
    /// Whether the change whose body these bytes are has a message, wherever its record starts. False where the bytes are the body of
    /// none that the catalogue's tables have. It takes no memory.
    pub fn has_message(&self, body: &[u8]) -> bool
        ensures value { (position : ℕ) (c : Changed) → SpellsBody body.now c →
            result ≡ is_some (change_message self.now position c) }
        ensures found { result ≡ true → (c : Changed) × SpellsBody body.now c }
    {
        let Some((tag, fields)) = body.split_first() else {
            return false;
        };
        self.tells_tagged(*tag, fields)
    }

    fn tells_tagged(&self, tag: u8, fields: &[u8]) -> bool
        ensures told { (position : ℕ) (c : Changed) → change_tagged tag fields.now ≡ Ok (c, []) →
            result ≡ is_some (change_message self.now position c) }
        ensures found { result ≡ true → IsReadWhole (change_tagged tag fields.now) }
    {
        match tag {
            INSERT_TAG => self.tells_insert(fields),
            UPDATE_TAG => self.tells_update(fields),
            DELETE_TAG => self.tells_delete(fields),
            TRUNCATE_TAG => self.tells_truncate(fields),
            MESSAGE_TAG => self.tells_logged(fields),
            _ => false,
        }
    }

    /// Whether an insert has a message, of which these are the OID and the row.
    fn tells_insert(&self, fields: &[u8]) -> bool
        ensures told { (m : ℕ × List Datum) → insert_at fields.now ≡ Ok (m, []) →
            result ≡ is_some (message self.now (Changed.Insert m.0 m.1)) }
        ensures found { result ≡ true → IsReadWhole (insert_at fields.now) }
    {
        let Some(table) = self.table_at(fields) else {
            return false;
        };
        self.passes_alone(Operation::Insert, table, fields)
    }

    /// Whether an update has one, of which these are the OID, the old row and the new one.
    // Its row isn't on the stack while another kind of change is judged.
    #[inline(never)]
    fn tells_update(&self, fields: &[u8]) -> bool
        ensures told { (m : (ℕ × List Datum) × List Datum) → update_at fields.now ≡ Ok (m, []) →
            result ≡ is_some (message self.now (Changed.Update m.0.0 m.0.1 m.1)) }
        ensures found { result ≡ true → IsReadWhole (update_at fields.now) }
    {
        let Some(table) = self.table_at(fields) else {
            return false;
        };
        self.tells_rows(table, fields)
    }

    /// Whether a delete has one, of which these are the OID and the old row.
    fn tells_delete(&self, fields: &[u8]) -> bool
        ensures told { (m : ℕ × List Datum) → insert_at fields.now ≡ Ok (m, []) →
            result ≡ is_some (message self.now (Changed.Delete m.0 m.1)) }
        ensures found { result ≡ true → IsReadWhole (insert_at fields.now) }
    {
        let Some(table) = self.table_at(fields) else {
            return false;
        };
        if !tells_gone_rows(table) {
            return false;
        }
        self.passes_alone(Operation::Delete, table, fields)
    }

    /// The table of the OID at the front, if the selection has it.
    #[tactic(auto, unfolding(tables::specs::Reading::insert_at))]
    fn table_at(&self, fields: &[u8]) -> Option<&Table>
        ensures value { (m : ℕ × List Datum) (rest : List ℕ) → insert_at fields.now ≡ Ok (m, rest) →
            option_copied result ≡ whole_table self.now m.0 }
        ensures fits { IfSome result (λ table. FitsTable table.now) }
    {
        let mut cursor = Cursor::new(fields);
        let oid = cursor.u32()?;
        self.table(oid)
    }

    /// Whether these are an OID and a row, which stands in the table and passes.
    fn passes_alone(&self, operation: Operation, table: &Table, fields: &[u8]) -> bool
        requires { FitsTable table.now }
        ensures value { (m : ℕ × List Datum) → insert_at fields.now ≡ Ok (m, []) →
            result ≡ (stands_in table.now m.1 && passes self.now operation m.0 m.1) }
        ensures found { result ≡ true → IsReadWhole (insert_at fields.now) }
    {
        let mut row = RowRef::new();
        let Some(oid) = one_row(fields, &mut row) else {
            return false;
        };
        table.takes_ref(&row) && self.passes(operation, oid, &row)
    }

    /// Whether these are the OID and the rows of an update in the table that has a message. The rows are read one after the other, into
    /// one room.
    fn tells_rows(&self, table: &Table, fields: &[u8]) -> bool
        requires { FitsTable table.now }
        ensures value { (m : (ℕ × List Datum) × List Datum) → update_at fields.now ≡ Ok (m, []) →
            result
            ≡ (stands_in table.now m.0.1
            && (stands_in table.now m.1
            && ((is_some (old_by table.now.identity table.now m.0.1)
            && passes self.now Operation.Update m.0.0 m.0.1)
            || passes self.now Operation.Update m.0.0 m.1))) }
        ensures found { result ≡ true → IsReadWhole (update_at fields.now) }
    {
        let mut row = RowRef::new();
        let Some((oid, behind)) = oid_and_row(fields, &mut row) else {
            return false;
        };
        if !table.takes_ref(&row) {
            return false;
        }
        let tells_old = self.tells_old(table, oid, &row);
        let Some(()) = last_row(behind, &mut row) else {
            return false;
        };
        self.tells_new(table, oid, tells_old, &row)
    }

    /// Whether an update whose old row this is has a message, whatever becomes of the row.
    fn tells_old(&self, table: &Table, oid: u32, old: &RowRef<'_>) -> bool
        ensures { result
            ≡ (is_some (old_by table.now.identity table.now old.now)
            && passes self.now Operation.Update oid old.now) }
    {
        tells_gone_rows(table) && self.passes(Operation::Update, oid, old)
    }

    /// Whether an update whose new row this is has a message.
    fn tells_new(&self, table: &Table, oid: u32, tells_old: bool, new: &RowRef<'_>) -> bool
        ensures { result
            ≡ (fits_table table.now new.now
            && (tells_old || passes self.now Operation.Update oid new.now)) }
    {
        table.takes_ref(new) && (tells_old || self.passes(Operation::Update, oid, new))
    }

    /// Whether a truncate has one, of which these are the count and the OIDs.
    // Its OIDs aren't on the stack while another kind of change is judged.
    #[inline(never)]
    fn tells_truncate(&self, fields: &[u8]) -> bool
        ensures told { (oids : List ℕ) → oids_at fields.now ≡ Ok (oids, []) →
            result ≡ is_some (message self.now (Changed.Truncate oids)) }
        ensures found { result ≡ true → IsReadWhole (oids_at fields.now) }
    {
        let mut oids = [0; MAX_TRUNCATED];
        let Some(count) = lend_oids(fields, &mut oids) else {
            return false;
        };
        self.tells_emptied(&oids[..count])
    }

    fn tells_emptied(&self, oids: &[u32]) -> bool
        ensures { result ≡ is_some (message self.now (Changed.Truncate oids.now)) }
    {
        may_be_emptied(self.tables.as_slice(), oids) && self.publishes_truncate(oids)
    }

    /// Whether truncates of one of the tables are published.
    fn publishes_truncate(&self, oids: &[u32]) -> bool
        ensures { result ≡ list_any (is_published self.now Operation.Truncate) oids.now }
    {
        oids.iter()
            .any(|oid| self.publishes(Operation::Truncate, *oid))
    }

    /// Whether a message of the log has one, of which these are the fields.
    fn tells_logged(&self, fields: &[u8]) -> bool
        ensures told { (position : ℕ) (m : Held) → message_at fields.now ≡ Ok (m, []) →
            result ≡ is_some (logged_message true self.now position m) }
        ensures found { result ≡ true → IsReadWhole (message_at fields.now) }
    {
        if !self.messages {
            return false;
        }
        let Some(message) = lend_message(fields) else {
            return false;
        };
        fits_log(message)
    }
}

/// Whether anything is told of a row of the table once it is gone.
fn tells_gone_rows(table: &Table) -> bool
    ensures { (row : List Datum) →
        result ≡ is_some (old_by table.now.identity table.now row) }
{
    !matches!(table.identity, Identity::Nothing)
}
