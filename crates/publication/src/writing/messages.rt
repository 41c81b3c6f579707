//! The message of an update, by which of its two rows pass.

ghost use Rattle.std.specs.Prelude.{◌≡◌, ◌<◌, ◌^◌, Some, length};
ghost use Rattle.pgoutput.specs.Logical.{spell_logical};
ghost use Rattle.pgoutput.specs.declared.logical.Logical.{Logical as Told};
ghost use Rattle.pqformat.specs.Writing.{FitsRoom};
ghost use Rattle.row_messages.specs.Relations.{listed_items, table_as_published};
ghost use Rattle.row_messages.specs.Spelling.{IsWritten};
ghost use Rattle.publication.specs.Projection.{message_of_update};

use row_messages::{put_deletion, put_insertion, put_replacement};
use tables::{RowRef, Table};

/// By whether the old row passed and the new one passes (PostgreSQL 15, 31.3.3).
pub(crate) fn put_update(
    out: &mut [u8],
    table: &Table,
    listed: &[bool],
    old_passes: bool,
    new_passes: bool,
    old: &RowRef<'_>,
    new: &RowRef<'_>,
) -> Option<usize>
    requires room { (m : Told) →
        message_of_update old_passes new_passes (Some (table_as_published listed.now table.now))
        (listed_items listed.now old.now) (listed_items listed.now new.now)
        ≡ Some m →
        FitsRoom 0 out.old (spell_logical m) }
    requires columns { length table.now.columns ≡ length old.now }
    requires rows { length old.now ≡ length new.now }
    requires few { length old.now < 2 ^ 15 }
    ensures { IsWritten result out.old out.new
        (message_of_update old_passes new_passes (Some (table_as_published listed.now table.now))
        (listed_items listed.now old.now) (listed_items listed.now new.now)) }
{
    match (old_passes, new_passes) {
        (true, true) => Some(put_replacement(out, table, listed, old, new)),
        (false, true) => Some(put_insertion(out, table, listed, new)),
        (true, false) => put_deletion(out, table, listed, old),
        (false, false) => None,
    }
}
