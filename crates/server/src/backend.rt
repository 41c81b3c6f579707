//! What a connection asks while it answers: the log's end, the slots, and the publications.

ghost use Rattle.std.specs.Prelude.{◌<◌, ◌^◌, length, IfOk};
ghost use Rattle.std.specs.List.{AllByRecursion};
ghost use Rattle.server.specs.Answers.{AreShortColumns, IsShort, IsShortName};
ghost use Rattle.server.specs.TableAnswers.{AreShortAttributes, IsShortFilter, IsShortList};
ghost use Rattle.server.specs.RowText.{AreShortNext};

use crate::asked::table_name::{TableColumns, TableName};
use crate::backend_fault::BackendFault;
use crate::found_table::{FoundTable, TableAttribute};
use crate::refusal::Refusal;
use pqformat::{Items, Text};
use replcmd::StreamOptions;

/// The backend of a connection. `told` is what one call with its answer says of a backend before and after it; a backend that
/// tells nothing says `Unit`, one that keeps a record of its calls says that it grew by this one.
pub trait Backend {
    ghost use Rattle.server.specs.Calls.{Call, End, System, CreateSlot, DropSlot, StartStream, CreateSnapshot, ReleaseSnapshot, Flushed, Publications, Tables, Columns, Table, Attributes, ColumnLists, RowFilters, OpenCopy, NextRow};

    ghost told: { Self → Call → Self → Type 0 };

    /// The end of the log.
    fn end(&mut self) -> u64
        ensures { told self.old (End result) self.new };

    /// The text that names the system.
    fn systemid(&self) -> &str
        ensures told { told self.now (System result.now) self.now }
        ensures short { length result.now < 2 ^ 16 };

    /// Makes a slot, and answers its consistent point; or why it makes none, such as `SlotExists` (L3) or `NoSlotPlace` (L4).
    fn create(&mut self, slot: &str) -> Result<u64, BackendFault>
        ensures { told self.old (CreateSlot slot.now result) self.new };

    /// Makes a slot, and the snapshot of all that committed below its consistent point, in one step, and answers that point; or why it
    /// makes none, as `create` does, or `NoCopies` (L13) where tables are not copied. The snapshot is held until
    /// `release_snapshot`, and no longer than the backend itself.
    fn create_with_snapshot(&mut self, slot: &str) -> Result<u64, BackendFault>
        ensures { told self.old (CreateSnapshot slot.now result) self.new };

    /// Lets the snapshot go that is held.
    fn release_snapshot(&mut self)
        ensures { told self.old ReleaseSnapshot self.new };

    /// Drops a slot; or answers why it doesn't, such as `SlotMissing` (L1) or `SlotInUse` (L2).
    fn drop_slot(&mut self, slot: &str) -> Result<(), BackendFault>
        ensures { told self.old (DropSlot slot.now result) self.new };

    /// Begins the stream that these options ask for, for the slot, at this position or at a later one that it has confirmed. Or
    /// it answers why none begins, such as `SlotMissing` (L1), `SlotInUse` (L2) or `UnknownPublication` (P1).
    fn start(
        &mut self,
        slot: &str,
        position: u64,
        options: &StreamOptions,
    ) -> Result<(), BackendFault>
        ensures { told self.old (StartStream slot.now position options.now result) self.new };

    /// Which of these names are publications; or why that isn't answered, such as `Memory`.
    fn publications(&mut self, names: &Items<Text>) -> Result<Items<Text>, BackendFault>
        ensures told { told self.old (Publications names.now result) self.new }
        ensures short { IfOk result (λ found. AllByRecursion IsShort found) };

    /// The tables of the publications of these names, each once. A name that no publication has adds none. Or it answers why it
    /// tells none, such as `Memory`.
    fn tables(&mut self, names: &Items<Text>) -> Result<Items<TableName>, BackendFault>
        ensures told { told self.old (Tables names.now result) self.new }
        ensures short { IfOk result (λ tables. AllByRecursion IsShortName tables) };

    /// The same tables, each with its columns that are published.
    fn columns(&mut self, names: &Items<Text>) -> Result<Items<TableColumns>, BackendFault>
        ensures told { told self.old (Columns names.now result) self.new }
        ensures short { IfOk result (λ tables. AllByRecursion AreShortColumns tables) };

    /// The table of this name; None where there is none. Or it answers why it tells none, such as `Memory`.
    fn table(&mut self, schema: &str, name: &str) -> Result<Option<FoundTable>, BackendFault>
        ensures { told self.old (Table schema.now name.now result) self.new };

    /// All columns of the table of this OID, in order; none where there is no such table. Or it answers why it tells none, such as
    /// `Memory`.
    fn attributes(&mut self, oid: u32) -> Result<Items<TableAttribute>, BackendFault>
        ensures told { told self.old (Attributes oid result) self.new }
        ensures short { IfOk result AreShortAttributes };

    /// The columns that the publications of these names publish of the table of this OID: each different list once, as the columns'
    /// numbers from 1; None is all columns. Or it answers why it tells none, such as `Memory`.
    fn column_lists(
        &mut self,
        oid: u32,
        publications: &Items<Text>,
    ) -> Result<Items<Option<Items<u16>>>, BackendFault>
        ensures told { told self.old (ColumnLists oid publications.now result) self.new }
        ensures short { IfOk result (λ lists. AllByRecursion IsShortList lists) };

    /// The row filters of these publications for the table of this OID, each different one once, as texts that `open_copy` reads also
    /// where they are joined by `OR`; None is all rows. Or it answers why it tells none, such as `Memory`.
    fn row_filters(
        &mut self,
        oid: u32,
        publications: &Items<Text>,
    ) -> Result<Items<Option<Text>>, BackendFault>
        ensures told { told self.old (RowFilters oid publications.now result) self.new }
        ensures short { IfOk result (λ filters. AllByRecursion IsShortFilter filters) };

    /// Begins to copy these columns of the rows of a table that pass the filter, as the snapshot that is held has them; `next_row`
    /// gives them. Or it answers why it copies none: `UnknownTable` (L10), `UnknownColumn` (L11), `UnknownFilter` (L12) or `Memory`.
    fn open_copy(
        &mut self,
        table: &TableName,
        columns: &Items<Text>,
        filter: &Option<Text>,
    ) -> Result<(), BackendFault>
        ensures { told self.old (OpenCopy table.now columns.now filter.now result) self.new };

    /// The next row of the copy that was begun, a text for each of its columns in their order, or None for a null; None at its end,
    /// which is told once. Or it answers why the copy goes no further, such as `Memory`; nothing more is asked of it then.
    fn next_row(&mut self) -> Result<Option<Items<Option<Text>>>, BackendFault>
        ensures told { told self.old (NextRow result) self.new }
        ensures short { AreShortNext result };

    /// Drops a slot once nobody holds it; who can't wait, or not for so long, answers that it is held (`SlotInUse`, L2).
    fn drop_when_free(&mut self, slot: &str) -> Result<(), BackendFault>
        ensures { told self.old (DropSlot slot.now result) self.new };

    /// A text was refused that is no command, or none that is served, or a question. It is told and asks nothing.
    fn refused(&self, _text: &str, _refusal: Refusal) {}

    /// A client has flushed all before the position; `ask`: it wants an answer at once.
    fn flushed(&mut self, position: u64, ask: bool)
        ensures { told self.old (Flushed position ask) self.new };
}
