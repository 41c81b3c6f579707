//! Changes of a transaction, told by the names of tables and columns.

ghost use Rattle.std.specs.Prelude.{◌≡◌, IfErr, IfOk, None, OnErr, OnOk, Some, map};
ghost use Rattle.tables.specs.Tables.{table_named};
ghost use Rattle.named_rows.specs.Fields.{key_columns, row_told};
ghost use Rattle.txlog.specs.declared.answers.fault.SessionFault.TheVariants.{UnknownTable};
ghost use Rattle.server_state.specs.declared.sessions.change_fault.ChangeFault.TheVariants.{Session};
ghost use Rattle.server_state.specs.Changing.{Deletes, Finds, Inserts, IsAtField, IsAtKey, IsDeleteRefusal, IsInsertRefusal, IsToldFault, IsUpdateRefusal, OfTable, Truncates, Updates, oid_named, oids_named};

use crate::sessions::change_fault::ChangeFault;
use crate::sessions::transaction::Transaction;
use named_rows::{NamedDatum, RowView, key_of, row_of};
use shared_log::LogName;
use slots::SlotName;
use std::sync::Wait;
use tables::{Row, Table};
use txlog::SessionFault;

/// Tables are named by their schemas, a dot and their own names, as `public.item`; columns by `named_rows::field`.
impl<'h, L: LogName + SlotName, R: Wait> Transaction<'h, L, R> {
    /// The row with this key, with what this transaction has done: each column of the primary key is told. None where no row has the
    /// key. `UnknownTable` (S1), `Key`, `Memory` (S11).
    pub fn get(
        &self,
        table: &str,
        key: &[NamedDatum<'_>],
    ) -> Result<Option<RowView<'_>>, ChangeFault>
        ensures { IfOk result (Finds table.now key.now self.now) }
    {
        let table = self.table_named(table)?;
        let key = match key_of(self.alloc(), table, key) {
            Ok(key) => key,
            Err(fault) => return Err(ChangeFault::Key(fault)),
        };
        match self.row(table.oid, &key) {
            Some(row) => Ok(Some(RowView::new(table, row))),
            None => Ok(None),
        }
    }

    /// Inserts a row that holds these fields, and null in each other column. Refused in this order: `UnknownTable` (S1), `Field`,
    /// `RowShape` (S2) where a column of the key isn't told, `TooLarge` (S6), `KeyHeld` (S5), `DuplicateKey` (S3), `LogFull` (S7),
    /// `Memory` (S11).
    #[tactic(auto, using(crate::proofs::Refused::told_insert))]
    pub fn insert(&mut self, table: &str, fields: &[NamedDatum<'_>]) -> Result<(), ChangeFault>
        ensures ok { OnOk result (Inserts table.now fields.now self.old self.new) }
        ensures err { OnErr result (self.new ≡ self.old) }
        ensures refused { IfErr result (IsInsertRefusal table.now fields.now self.old) }
    {
        let (oid, row) = self.row_told(table, fields)?;
        match self.insert_row(oid, row) {
            Ok(()) => Ok(()),
            Err(fault) => Err(ChangeFault::Session(fault)),
        }
    }

    /// The row with this key holds these fields from now on, and null in each other column. Refused in this order: `UnknownTable`
    /// (S1), `Key`, `Field`, `RowShape` (S2) where a column of the key isn't told, `TooLarge` (S6), `KeyHeld` (S5), `NoSuchRow`
    /// (S4), `DuplicateKey` (S3), `LogFull` (S7), `Memory` (S11).
    #[tactic(auto, using(crate::proofs::Refused::told_update))]
    pub fn update(
        &mut self,
        table: &str,
        key: &[NamedDatum<'_>],
        fields: &[NamedDatum<'_>],
    ) -> Result<(), ChangeFault>
        ensures ok { OnOk result (Updates table.now key.now fields.now self.old self.new) }
        ensures err { OnErr result (self.new ≡ self.old) }
        ensures refused { IfErr result (IsUpdateRefusal table.now key.now fields.now self.old) }
    {
        let (_, key) = self.key_told(table, key)?;
        let (oid, row) = self.row_told(table, fields)?;
        match self.update_row(oid, &key, row) {
            Ok(()) => Ok(()),
            Err(fault) => Err(ChangeFault::Session(fault)),
        }
    }

    /// Deletes the row with this key. Refused in this order: `UnknownTable` (S1), `Key`, `RowShape` (S2) where a column of the key
    /// isn't told, `KeyHeld` (S5), `NoSuchRow` (S4), `LogFull` (S7), `Memory` (S11).
    #[tactic(auto, using(crate::proofs::Refused::told_delete))]
    pub fn delete(&mut self, table: &str, key: &[NamedDatum<'_>]) -> Result<(), ChangeFault>
        ensures ok { OnOk result (Deletes table.now key.now self.old self.new) }
        ensures err { OnErr result (self.new ≡ self.old) }
        ensures refused { IfErr result (IsDeleteRefusal table.now key.now self.old) }
    {
        let (oid, key) = self.key_told(table, key)?;
        match self.delete_row(oid, &key) {
            Ok(()) => Ok(()),
            Err(fault) => Err(ChangeFault::Session(fault)),
        }
    }

    /// Empties these tables. Refused in this order: `UnknownTable` (S1), `RowShape` (S2) where none is named or one twice, `TooLarge`
    /// (S6) where too many are, `KeyHeld` (S5), `LogFull` (S7), `Memory` (S11).
    pub fn truncate(&mut self, tables: &[&str]) -> Result<(), ChangeFault>
        ensures ok { OnOk result (Truncates (map (λ name. name.now) tables.now) self.old self.new) }
        ensures err { OnErr result (self.new ≡ self.old) }
    {
        let oids = self.oids_of(tables)?;
        Ok(self.truncate_tables(oids.as_slice())?)
    }

    /// The OIDs of the tables of these names.
    fn oids_of(&self, tables: &[&str]) -> Result<Vec<u32>, ChangeFault>
        ensures ok { IfOk result (λ oids.
            oids.items ≡ oids_named (map (λ name. name.now) tables.now) self.now) }
    {
        let mut oids = Vec::new(self.alloc());
        for table in tables {
            oids.push(self.oid_of(table)?)?;
        }
        Ok(oids)
    }

    fn oid_of(&self, name: &str) -> Result<u32, ChangeFault>
        ensures { IfOk result (λ oid. oid ≡ oid_named self.now name.now) }
    {
        Ok(self.table_named(name)?.oid)
    }

    fn table_named(&self, name: &str) -> Result<&Table, ChangeFault>
        ensures ok { IfOk result (λ t. table_named name.now self.now.publisher.tables ≡ Some t.now) }
        ensures err { IfErr result (λ fault. (fault ≡ Session UnknownTable)
            × (table_named name.now self.now.publisher.tables ≡ None)) }
    {
        match self.catalog().named(name) {
            Some(table) => Ok(table),
            None => Err(ChangeFault::Session(SessionFault::UnknownTable)),
        }
    }

    /// The table of this name, and its row of these fields.
    fn row_told(&self, table: &str, fields: &[NamedDatum<'_>]) -> Result<(u32, Row), ChangeFault>
        ensures ok { IfOk result (λ told. OfTable table.now self.now (λ t. (told.0 ≡ t.oid)
            × (told.1 ≡ row_told t.columns fields.now))) }
        ensures err { IfErr result (λ fault. IsToldFault (IsAtField fields.now) table.now fault self.now) }
    {
        let table = self.table_named(table)?;
        match row_of(self.alloc(), table, fields) {
            Ok(row) => Ok((table.oid, row)),
            Err(fault) => Err(ChangeFault::Field(fault)),
        }
    }

    /// The table of this name, and its key of these fields.
    fn key_told(&self, table: &str, key: &[NamedDatum<'_>]) -> Result<(u32, Row), ChangeFault>
        ensures ok { IfOk result (λ told. OfTable table.now self.now (λ t. (told.0 ≡ t.oid)
            × (told.1 ≡ row_told (key_columns t.columns) key.now))) }
        ensures err { IfErr result (λ fault. IsToldFault (IsAtKey key.now) table.now fault self.now) }
    {
        let table = self.table_named(table)?;
        match key_of(self.alloc(), table, key) {
            Ok(key) => Ok((table.oid, key)),
            Err(fault) => Err(ChangeFault::Key(fault)),
        }
    }
}
