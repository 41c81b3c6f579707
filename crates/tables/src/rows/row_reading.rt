//! How a row is read from the body of a change.

ghost use Rattle.std.specs.Prelude.{◌≡◌, ◌≢◌, ◌<◌, IsOk, Err};
ghost use Rattle.pqformat.specs.Steps.{repeat_at};
ghost use Rattle.tables.specs.Kinds.{value_at};
ghost use Rattle.tables.specs.Reading.{Gives, RowHasValue, row_at};
ghost use Rattle.tables.specs.declared.fault.BodyFault.TheVariants.{Memory};

use crate::fault::BodyFault;
use crate::kinds::{Value, read_value};
use crate::rows::row::Row;
use pqformat::{Cursor, Items};
use std::alloc::Global;

#[tactic(auto, unfolding(crate::specs::Reading::row_at))]
pub(crate) fn row_of(alloc: Global, cursor: &mut Cursor<'_>) -> Result<Row, BodyFault>
    ensures exact { Gives result cursor.new (row_at cursor.old) }
    ensures memory { result ≡ Err Memory → RowHasValue cursor.old }
{
    let count = cursor.u16().ok_or(BodyFault::Short)?;
    let values = values_of(alloc, cursor, count)?;
    Ok(Row::new(values.into_vec()))
}

fn values_of(alloc: Global, cursor: &mut Cursor<'_>, count: u16) -> Result<Items<Value>, BodyFault>
    ensures exact { Gives result cursor.new (repeat_at value_at count cursor.old) }
    ensures memory { result ≡ Err Memory → (0 < count) × IsOk (value_at cursor.old) }
{
    let mut values = Vec::new(alloc);
    for _ in 0..count {
        let value = read_value(alloc, cursor)?;
        values.push(value)?;
    }
    Ok(Items::new(values))
}
