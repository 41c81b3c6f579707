//! A row that is read where it lies: values of a row, or the body of a change.

ghost use Rattle.std.specs.Prelude.{◌≡◌, ◌<◌, ◌≤◌, ℕ, List, [], length, slice_get, IfNone, IfSome, OnSome, Ok};
ghost use Rattle.std.specs.Option.{option_map};
ghost use Rattle.tables.specs.Kinds.{value_of};
ghost use Rattle.tables.specs.Reading.{IsCodedRow, row_at};
ghost use Rattle.tables.specs.Refs.{IsLarge};
ghost use Rattle.tables.specs.Spelling.{row_length};
ghost use Rattle.tables.specs.declared.rows.row.TheConstants.{MAX_ROW_LENGTH};
ghost use Rattle.tables.specs.declared.table.TheConstants.{MAX_COLUMNS};
ghost use Rattle.tables.specs.declared.kinds.Value.{Value as Datum};

use crate::kinds::{Value, ValueRef};
use crate::rows::lending::lend_values;
use crate::rows::row::{MAX_ROW_LENGTH, Row};
use crate::table::MAX_COLUMNS;
use pqformat::Cursor;
use std::marker::Model;

/// The values of a row, which lies elsewhere. Contracts see the list of them.
#[derive(Drop)]
pub struct RowRef<'a> {
    /// Those that were read from a body.
    read: [ValueRef<'a>; MAX_COLUMNS],
    count: usize,
    /// Those of a row, after them. There are values of one kind alone.
    values: &'a [Value],
}

impl<'a> Model for RowRef<'a> {
    ghost use Rattle.std.specs.Prelude.{◌≤◌, ◌++◌, List, length, map, take};
    ghost use Rattle.tables.specs.declared.table.TheConstants.{MAX_COLUMNS};
    ghost use Rattle.tables.specs.declared.kinds.Value.{Value as Datum};
    ghost use Rattle.tables.specs.Kinds.{value_of};

    ghost Value = { List Datum };

    ghost view = { λ r. map value_of (take r.count r.read) ++ r.values.now };

    ghost invariant = { λ r. (r.count ≤ length r.read) × (r.count ≤ MAX_COLUMNS) };
}

impl<'a> RowRef<'a> {
    pub fn of(row: &'a Row) -> Self
        ensures { result ≡ row.now }
    {
        RowRef {
            read: [ValueRef::Null; MAX_COLUMNS],
            count: 0,
            values: row.values(),
        }
    }

    /// No values.
    pub fn new() -> Self
        ensures { result ≡ [] }
    {
        RowRef {
            read: [ValueRef::Null; MAX_COLUMNS],
            count: 0,
            values: none(),
        }
    }

    /// Becomes the row at the front of the bytes, and answers what stands after it. None where no row is spelled there, or one
    /// that no table has: of over 64 values, or of over 8,000 bytes.
    #[tactic(auto, unfolding(crate::specs::Reading::row_at))]
    pub fn read(&mut self, bytes: &'a [u8]) -> Option<&'a [u8]>
        ensures found { IfSome result (λ rest. row_at bytes.now ≡ Ok (self.new, rest.now)) }
        ensures coded { OnSome result
            (IsCodedRow self.new × (row_length self.new ≤ MAX_ROW_LENGTH)) }
        ensures none { IfNone result
            ((row : List Datum) (rest : List ℕ) → row_at bytes.now ≡ Ok (row, rest) → IsLarge row) }
    {
        let mut cursor = Cursor::new(bytes);
        let count = usize::from(cursor.u16()?);
        if count > MAX_COLUMNS {
            return None;
        }
        let Ok(()) = lend_values(&mut cursor, &mut self.read, count) else {
            return None;
        };
        self.count = count;
        self.values = none();
        let rest = cursor.rest();
        if bytes.len() - rest.len() > MAX_ROW_LENGTH {
            return None;
        }
        Some(rest)
    }

    #[tactic(auto, using(crate::proofs::Lent::length_lent))]
    pub fn len(&self) -> usize
        ensures { result ≡ length self.now }
    {
        self.count + self.values.len()
    }

    /// The value in the column at this place; None where the row has no such column.
    #[tactic(auto, using(crate::proofs::Lent::gets))]
    pub fn get(&self, place: usize) -> Option<ValueRef<'a>>
        ensures { option_map value_of result ≡ slice_get self.now place }
    {
        if place < self.count {
            return Some(self.read[place]);
        }
        lent(self.values, place - self.count)
    }
}

fn none<'a>() -> &'a [Value]
    ensures { result.now ≡ [] }
{
    let none: &[Value] = &[];
    none
}

fn lent(values: &[Value], place: usize) -> Option<ValueRef<'_>>
    ensures { option_map value_of result ≡ slice_get values.now place }
{
    match values.get(place) {
        Some(value) => Some(value.lend()),
        None => None,
    }
}
