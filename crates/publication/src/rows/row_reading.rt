//! The rows of a change, read where they lie.

ghost use Rattle.std.specs.Prelude.{◌≡◌, ◌⊎◌, [], ℕ, List, IfNone, IfSome, OnSome, Ok};
ghost use Rattle.tables.specs.Reading.{insert_at, row_at, update_at};
ghost use Rattle.tables.specs.Refs.{IsLarge};
ghost use Rattle.tables.specs.declared.kinds.Value.{Value as Datum};
ghost use Rattle.publication.specs.Read.{IsShortRow};

use pqformat::Cursor;
use tables::RowRef;

/// An OID and a row, of which nothing follows. None where they aren't spelled so, or where the row is larger than any of a table.
#[tactic(auto, unfolding(tables::specs::Reading::insert_at))]
pub(crate) fn one_row<'a>(fields: &'a [u8], row: &mut RowRef<'a>) -> Option<u32>
    ensures found { IfSome result (λ oid. insert_at fields.now ≡ Ok ((oid, row.new), [])) }
    ensures short { OnSome result (IsShortRow row.new) }
    ensures none { IfNone result
        ((m : ℕ × List Datum) → insert_at fields.now ≡ Ok (m, []) → IsLarge m.1) }
{
    let (oid, rest) = oid_and_row(fields, row)?;
    if !rest.is_empty() {
        return None;
    }
    Some(oid)
}

/// An OID, an old row and a new one, of which nothing follows, under the same conditions.
#[tactic(auto, unfolding(tables::specs::Reading::update_at))]
pub(crate) fn two_rows<'a>(
    fields: &'a [u8],
    old: &mut RowRef<'a>,
    new: &mut RowRef<'a>,
) -> Option<u32>
    ensures found { IfSome result
        (λ oid. update_at fields.now ≡ Ok (((oid, old.new), new.new), [])) }
    ensures short { OnSome result (IsShortRow old.new × IsShortRow new.new) }
    ensures none { IfNone result
        ((m : (ℕ × List Datum) × List Datum) → update_at fields.now ≡ Ok (m, []) →
        IsLarge m.0.1 ⊎ IsLarge m.1) }
{
    let (oid, behind) = oid_and_row(fields, old)?;
    last_row(behind, new)?;
    Some(oid)
}

/// The OID and the row at the front, and what stands after them.
#[tactic(auto, unfolding(tables::specs::Reading::insert_at))]
pub(crate) fn oid_and_row<'a>(fields: &'a [u8], row: &mut RowRef<'a>) -> Option<(u32, &'a [u8])>
    ensures found { IfSome result
        (λ read. insert_at fields.now ≡ Ok ((read.0, row.new), read.1.now)) }
    ensures short { OnSome result (IsShortRow row.new) }
    ensures none { IfNone result
        ((m : ℕ × List Datum) (rest : List ℕ) → insert_at fields.now ≡ Ok (m, rest) → IsLarge m.1) }
{
    let mut cursor = Cursor::new(fields);
    let oid = cursor.u32()?;
    let rest = row.read(cursor.rest())?;
    Some((oid, rest))
}

/// A row of which nothing follows, under the same conditions.
pub(crate) fn last_row<'a>(bytes: &'a [u8], row: &mut RowRef<'a>) -> Option<()>
    ensures found { OnSome result (row_at bytes.now ≡ Ok (row.new, [])) }
    ensures short { OnSome result (IsShortRow row.new) }
    ensures none { IfNone result
        ((values : List Datum) → row_at bytes.now ≡ Ok (values, []) → IsLarge values) }
{
    let rest = row.read(bytes)?;
    if !rest.is_empty() {
        return None;
    }
    Some(())
}
