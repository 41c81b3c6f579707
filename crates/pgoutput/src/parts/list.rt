//! Lists, a count and that many items: what an item must tell to be read and written in one.

ghost use Rattle.std.specs.Prelude.{◌≡◌, ◌^◌, ◌<◌, ◌++◌, length, take};
ghost use Rattle.std.specs.List.{flat_map, AllByRecursion};
ghost use Rattle.pqformat.specs.Fields.{int16};
ghost use Rattle.pqformat.specs.Steps.{repeat_at};
ghost use Rattle.pqformat.specs.Putting.{Puts};
ghost use Rattle.pgoutput.specs.Reading.{Gives};

use crate::fault::PgoutputError;
use bytes::BytesMut;
use pqformat::{Cursor, Items, put_int16};
use std::alloc::{AllocError, Global};

/// What stands in a list, as it is read.
pub(crate) trait ReadItem {
    ghost use Rattle.std.specs.Prelude.{List, ℕ, Result};
    ghost use Rattle.pgoutput.specs.declared.fault.PgoutputError.{PgoutputError};

    type Item: Drop;

    ghost item_at: { List ℕ → Result (Self.Item × List ℕ) PgoutputError };

    fn read(alloc: Global, cursor: &mut Cursor<'_>) -> Result<Self::Item, PgoutputError>
        ensures { Gives result cursor.new (item_at cursor.old) };
}

pub(crate) fn items_of<T: ReadItem>(
    alloc: Global,
    cursor: &mut Cursor<'_>,
    count: usize,
) -> Result<Items<T::Item>, PgoutputError>
    ensures { Gives result cursor.new (repeat_at T.item_at count cursor.old) }
{
    let mut items = Vec::new(alloc);
    for _ in 0..count {
        let item = T::read(alloc, cursor)?;
        items.push(item)?;
    }
    Ok(Items::new(items))
}

/// What stands in a list, as it is written.
pub(crate) trait PutItem {
    ghost use Rattle.std.specs.Prelude.{List, ℕ};

    ghost spelled: { Self → List ℕ };

    ghost is_short: { Self → Type 0 };

    fn put(&self, out: &mut BytesMut) -> Result<(), AllocError>
        requires { is_short self.now }
        ensures { Puts result out.old.items out.new.items (spelled self.now) };
}

/// The count of the items, in two bytes, and each item.
#[tactic(auto, using(pqformat::proofs::Putting::in_place))]
pub(crate) fn put_items<T: PutItem>(out: &mut BytesMut, items: &[T]) -> Result<(), AllocError>
    requires count { length items.now < 2 ^ 15 }
    requires each { AllByRecursion T.is_short items.now }
    ensures { Puts result out.old.items out.new.items
        (int16 (length items.now) ++ flat_map T.spelled items.now) }
{
    put_int16(out, items.len() as u16)?;
    put_each(out, items)
}

pub(crate) fn put_each<T: PutItem>(out: &mut BytesMut, items: &[T]) -> Result<(), AllocError>
    requires { AllByRecursion T.is_short items.now }
    ensures { Puts result out.old.items out.new.items (flat_map T.spelled items.now) }
{
    for item in items {
        item.put(out)?;
    }
    Ok(())
}
