//! A backend that does as the names of slots say, and writes down what it is asked.

ghost use Rattle.server.specs.RowText.{AreShortNext};

use crate::talking::scripted_tables::{ITEM, attributes_of, filters_of, lists_of, row_of};
use pqformat::{Items, Text};
use replcmd::StreamOptions;
use server::{
    Backend, BackendFault, FoundTable, TableAttribute, TableColumns, TableIdentity, TableName,
};
use std::alloc::{AllocError, Global};

/// The slots that it refuses, and why. It takes any other.
const REFUSED: [(&str, BackendFault); 8] = [
    ("missing", BackendFault::SlotMissing),
    ("busy", BackendFault::SlotInUse),
    ("there", BackendFault::SlotExists),
    ("full", BackendFault::NoSlotPlace),
    ("unknown", BackendFault::UnknownPublication),
    ("conflict", BackendFault::ListConflict),
    ("late", BackendFault::NoReader),
    ("poor", BackendFault::Memory),
];

/// The OID of its table without a key.
const KEYLESS: u32 = 16425;

/// How many rows its largest table has.
const MANY_ROWS: u32 = 3000;

/// Where its log ends: an empty log's first position.
const END: u64 = 0x100_0000;

/// The backend of a system called 42.
#[derive(Drop)]
pub struct ScriptedBackend {
    alloc: Global,
    asked: String,
    /// What is left of the copy that was begun.
    copy: ScriptedCopy,
    /// Whether there was memory for all that was to be written down.
    is_whole: bool,
}

/// What is left of a copy.
#[derive(Clone, Copy)]
enum ScriptedCopy {
    Over,
    /// The rows of `item` from this one on.
    Items(usize),
    /// So many rows alike.
    Many(u32),
    /// One row, and then a fault.
    Torn,
    Broken,
}

impl ScriptedBackend {
    pub fn new(alloc: Global) -> Self {
        ScriptedBackend {
            alloc,
            asked: String::new(alloc),
            copy: ScriptedCopy::Over,
            is_whole: true,
        }
    }

    /// What it was asked, each call with a comma after it.
    pub fn asked(&self) -> Option<&str> {
        if self.is_whole {
            Some(self.asked.as_str())
        } else {
            None
        }
    }

    /// The next row of the copy.
    fn step_copy(&mut self) -> Result<Option<Items<Option<Text>>>, BackendFault>
        ensures { AreShortNext result }
    {
        match self.copy {
            ScriptedCopy::Over => Ok(None),
            ScriptedCopy::Items(place) => self.step_items(place),
            ScriptedCopy::Many(0) => {
                self.copy = ScriptedCopy::Over;
                Ok(None)
            }
            ScriptedCopy::Many(left) => {
                self.copy = ScriptedCopy::Many(left.saturating_sub(1));
                row_of(
                    self.alloc,
                    Some("one"),
                    Some("of very many rows"),
                    Some("alike"),
                )
            }
            ScriptedCopy::Torn => {
                self.copy = ScriptedCopy::Broken;
                row_of(self.alloc, Some("1"), None, None)
            }
            ScriptedCopy::Broken => Err(BackendFault::Memory),
        }
    }

    /// The row of `item` at this place.
    fn step_items(&mut self, place: usize) -> Result<Option<Items<Option<Text>>>, BackendFault>
        ensures { AreShortNext result }
    {
        self.copy = ScriptedCopy::Items(place.saturating_add(1));
        match place {
            0 => row_of(self.alloc, Some("1"), Some("a\tb\\c\n"), Some("7")),
            1 => row_of(self.alloc, Some("2"), None, Some("8")),
            2 => row_of(self.alloc, Some("3"), Some("\\N"), Some("")),
            _ => {
                self.copy = ScriptedCopy::Over;
                Ok(None)
            }
        }
    }

    fn note(&mut self, noted: Result<(), AllocError>) {
        self.is_whole = self.is_whole && noted.is_ok();
    }
}

impl Backend for ScriptedBackend {
    ghost told = { λ old call new. Unit {0} };

    fn end(&mut self) -> u64 {
        END
    }

    fn systemid(&self) -> &str {
        "42"
    }

    fn create(&mut self, slot: &str) -> Result<u64, BackendFault> {
        let noted = write!(self.asked, "(create, {slot:?}), ");
        self.note(noted);
        answer_of(slot)?;
        Ok(END)
    }

    fn create_with_snapshot(&mut self, slot: &str) -> Result<u64, BackendFault> {
        let noted = write!(self.asked, "(create_with_snapshot, {slot:?}), ");
        self.note(noted);
        answer_of(slot)?;
        Ok(END)
    }

    fn release_snapshot(&mut self) {
        let noted = write!(self.asked, "(release_snapshot, 0), ");
        self.note(noted);
    }

    fn drop_slot(&mut self, slot: &str) -> Result<(), BackendFault> {
        let noted = write!(self.asked, "(drop, {slot:?}), ");
        self.note(noted);
        answer_of(slot)
    }

    // Its connections answer no questions.
    fn publications(&mut self, _names: &Items<Text>) -> Result<Items<Text>, BackendFault> {
        Err(BackendFault::UnknownPublication)
    }

    fn tables(&mut self, _names: &Items<Text>) -> Result<Items<TableName>, BackendFault> {
        Err(BackendFault::UnknownPublication)
    }

    fn columns(&mut self, _names: &Items<Text>) -> Result<Items<TableColumns>, BackendFault> {
        Err(BackendFault::UnknownPublication)
    }

    fn table(&mut self, schema: &str, name: &str) -> Result<Option<FoundTable>, BackendFault> {
        let noted = write!(self.asked, "(table, {schema:?}, {name:?}), ");
        self.note(noted);
        Ok(match name {
            "poor" => return Err(BackendFault::Memory),
            "item" => Some(FoundTable {
                oid: ITEM,
                identity: TableIdentity::Default,
            }),
            "a'\\b" => Some(FoundTable {
                oid: KEYLESS,
                identity: TableIdentity::Full,
            }),
            "nothing" => Some(FoundTable {
                oid: u32::MAX,
                identity: TableIdentity::Nothing,
            }),
            _ => None,
        })
    }

    fn attributes(&mut self, oid: u32) -> Result<Items<TableAttribute>, BackendFault> {
        let noted = write!(self.asked, "(attributes, {oid}), ");
        self.note(noted);
        match attributes_of(self.alloc, oid) {
            Ok(attributes) => Ok(attributes),
            Err(_) => Err(BackendFault::Memory),
        }
    }

    fn column_lists(
        &mut self,
        oid: u32,
        publications: &Items<Text>,
    ) -> Result<Items<Option<Items<u16>>>, BackendFault> {
        let names = publications.as_slice();
        let noted = write!(self.asked, "(column_lists, {oid}, {names:?}), ");
        self.note(noted);
        match lists_of(self.alloc, names) {
            Ok(lists) => Ok(lists),
            Err(_) => Err(BackendFault::Memory),
        }
    }

    fn row_filters(
        &mut self,
        oid: u32,
        publications: &Items<Text>,
    ) -> Result<Items<Option<Text>>, BackendFault> {
        let names = publications.as_slice();
        let noted = write!(self.asked, "(row_filters, {oid}, {names:?}), ");
        self.note(noted);
        match filters_of(self.alloc, names) {
            Ok(filters) => Ok(filters),
            Err(_) => Err(BackendFault::Memory),
        }
    }

    fn open_copy(
        &mut self,
        table: &TableName,
        columns: &Items<Text>,
        filter: &Option<Text>,
    ) -> Result<(), BackendFault> {
        let schema = table.schema.as_str();
        let name = table.name.as_str();
        let columns = columns.as_slice();
        let noted = write!(
            self.asked,
            "(open_copy, {schema:?}, {name:?}, {columns:?}, {filter:?}), "
        );
        self.note(noted);
        self.copy = match name {
            "item" => ScriptedCopy::Items(0),
            "many" => ScriptedCopy::Many(MANY_ROWS),
            "torn" => ScriptedCopy::Torn,
            "empty" => ScriptedCopy::Over,
            "narrow" => return Err(BackendFault::UnknownColumn),
            "strange" => return Err(BackendFault::UnknownFilter),
            _ => return Err(BackendFault::UnknownTable),
        };
        Ok(())
    }

    fn next_row(&mut self) -> Result<Option<Items<Option<Text>>>, BackendFault> {
        self.step_copy()
    }

    fn drop_when_free(&mut self, slot: &str) -> Result<(), BackendFault> {
        self.drop_slot(slot)
    }

    fn start(
        &mut self,
        slot: &str,
        position: u64,
        options: &StreamOptions,
    ) -> Result<(), BackendFault> {
        let noted = write!(self.asked, "(start, {slot:?}, {position}, {options:?}), ");
        self.note(noted);
        answer_of(slot)
    }

    fn flushed(&mut self, position: u64, ask: bool) {
        let noted = write!(self.asked, "(flushed, {position}, {ask}), ");
        self.note(noted);
    }
}

fn answer_of(slot: &str) -> Result<(), BackendFault> {
    for (name, fault) in &REFUSED {
        if *name == slot {
            return Err(*fault);
        }
    }
    Ok(())
}
