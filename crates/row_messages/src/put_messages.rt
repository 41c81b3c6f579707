//! The messages of changes in one table, written where they are sent from.
#![tactic(auto, using(crate::proofs::Written::sizes))]

ghost use Rattle.std.specs.Prelude.{◌≡◌, ◌<◌, ◌^◌, ◌∷◌, ◌++◌, [], Some, length};
ghost use Rattle.pgoutput.specs.Logical.{spell_logical};
ghost use Rattle.pgoutput.specs.declared.logical.Logical.{Logical};
ghost use Rattle.pgoutput.specs.declared.messages.delete.TheConstants.{DELETE};
ghost use Rattle.pqformat.specs.Fields.{int32};
ghost use Rattle.pgoutput.specs.Update.{old_if_any};
ghost use Rattle.row_messages.specs.Relations.{listed_items, table_as_published};
ghost use Rattle.row_messages.specs.Messages.{delete_message, insert_message, update_message};
ghost use Rattle.pqformat.specs.Writing.{FitsRoom, Writes};
ghost use Rattle.row_messages.specs.Spelling.{IsWritten};
ghost use Rattle.row_messages.specs.Tuples.{old_row_of_update};

use crate::tuples::{changes_key_in, put_key_tuple, put_tuple, put_tuple_after};
use pgoutput::{DELETE, INSERT, KEY, NEW, OLD, UPDATE};
use pqformat::{write_byte, write_int32};
use tables::{Identity, RowRef, Table};

/// Of a row that came.
pub fn put_insertion(out: &mut [u8], table: &Table, listed: &[bool], row: &RowRef<'_>) -> usize
    requires room { FitsRoom 0 out.old
        (spell_logical
        (insert_message (listed_items listed.now row.now)
        (table_as_published listed.now table.now))) }
    requires few { length row.now < 2 ^ 15 }
    ensures { Writes 0 result out.old out.new
        (spell_logical
        (insert_message (listed_items listed.now row.now)
        (table_as_published listed.now table.now))) }
{
    let kind = write_byte(out, 0, INSERT);
    let oid = write_int32(out, kind, table.oid);
    let letter = write_byte(out, oid, NEW);
    put_tuple(out, letter, listed, row)
}

/// Of a row that took the place of another one.
pub fn put_replacement(
    out: &mut [u8],
    table: &Table,
    listed: &[bool],
    old: &RowRef<'_>,
    new: &RowRef<'_>,
) -> usize
    requires room { FitsRoom 0 out.old
        (spell_logical
        (update_message (listed_items listed.now old.now) (listed_items listed.now new.now)
        (table_as_published listed.now table.now))) }
    requires columns { length table.now.columns ≡ length old.now }
    requires rows { length old.now ≡ length new.now }
    requires few { length old.now < 2 ^ 15 }
    ensures { Writes 0 result out.old out.new
        (spell_logical
        (update_message (listed_items listed.now old.now) (listed_items listed.now new.now)
        (table_as_published listed.now table.now))) }
{
    let kind = write_byte(out, 0, UPDATE);
    let oid = write_int32(out, kind, table.oid);
    let replaced = put_replaced(out, oid, table, listed, old, new);
    let letter = write_byte(out, replaced, NEW);
    put_tuple_after(out, letter, listed, old, new)
}

/// What is sent of a row beside the one that took its place: the key only where it changed.
fn put_replaced(
    out: &mut [u8],
    at: usize,
    table: &Table,
    listed: &[bool],
    old: &RowRef<'_>,
    new: &RowRef<'_>,
) -> usize
    requires room { FitsRoom at out.old
        (old_if_any
        (old_row_of_update table.now.identity (table_as_published listed.now table.now)
        (listed_items listed.now old.now) (listed_items listed.now new.now))) }
    requires columns { length table.now.columns ≡ length old.now }
    requires rows { length old.now ≡ length new.now }
    requires few { length old.now < 2 ^ 15 }
    ensures { Writes at result out.old out.new
        (old_if_any
        (old_row_of_update table.now.identity (table_as_published listed.now table.now)
        (listed_items listed.now old.now) (listed_items listed.now new.now))) }
{
    let columns = table.columns.as_slice();
    match table.identity {
        Identity::Default => {
            if !changes_key_in(columns, listed, old, new) {
                return at;
            }
            let letter = write_byte(out, at, KEY);
            put_key_tuple(out, letter, columns, listed, old)
        }
        Identity::Nothing => at,
        Identity::Full => {
            let letter = write_byte(out, at, OLD);
            put_tuple(out, letter, listed, old)
        }
    }
}

/// Puts the Delete of this row into the room, and answers where it ends. None for a table without an identity, of whose rows
/// nothing can be told once they are gone.
pub fn put_deletion(
    out: &mut [u8],
    table: &Table,
    listed: &[bool],
    old: &RowRef<'_>,
) -> Option<usize>
    requires room { (m : Logical) →
        delete_message (listed_items listed.now old.now) (table_as_published listed.now table.now)
        ≡ Some m →
        FitsRoom 0 out.old (spell_logical m) }
    requires columns { length table.now.columns ≡ length old.now }
    requires few { length old.now < 2 ^ 15 }
    ensures { IsWritten result out.old out.new
        (delete_message (listed_items listed.now old.now)
        (table_as_published listed.now table.now)) }
{
    match table.identity {
        Identity::Default => {
            let letter = put_head(out, table.oid, KEY);
            let columns = table.columns.as_slice();
            Some(put_key_tuple(out, letter, columns, listed, old))
        }
        Identity::Nothing => None,
        Identity::Full => {
            let letter = put_head(out, table.oid, OLD);
            Some(put_tuple(out, letter, listed, old))
        }
    }
}

/// The front of a Delete, up to the letter before its tuple.
fn put_head(out: &mut [u8], oid: u32, letter: u8) -> usize
    requires { FitsRoom 0 out.old (DELETE ∷ (int32 oid ++ letter ∷ [])) }
    ensures { Writes 0 result out.old out.new (DELETE ∷ (int32 oid ++ letter ∷ [])) }
{
    let kind = write_byte(out, 0, DELETE);
    let end = write_int32(out, kind, oid);
    write_byte(out, end, letter)
}
