//! How a row is written into the log.
#![tactic(auto, using(pqformat::proofs::Putting::extends_itself, pqformat::proofs::Putting::extends_more, pqformat::proofs::Putting::extends_back))]

ghost use Rattle.std.specs.Prelude.{◌≡◌, ◌++◌, ◌∷◌, [], ◌<◌, ◌≤◌, ◌^◌, OnErr, OnOk, length, if◌then◌else◌};
ghost use Rattle.std.specs.List.{flat_map};
ghost use Rattle.pqformat.specs.Putting.{Puts};
ghost use Rattle.tables.specs.declared.rows.row.TheConstants.{MAX_ROW_LENGTH};
ghost use Rattle.tables.specs.Spelling.{row_length, spell_row};

use crate::kinds::put_value;
use crate::rows::row::Row;
use bytes::BytesMut;
use pqformat::put_int16;
use std::alloc::AllocError;

pub(crate) fn put_row(row: &Row, out: &mut BytesMut) -> Result<(), AllocError>
    requires { row_length row.now ≤ MAX_ROW_LENGTH }
    ensures { Puts result out.old.items out.new.items (spell_row row.now) }
{
    let values = row.values();
    put_int16(out, values.len() as u16)?;
    for value in values {
        put_value(value, out)?;
    }
    Ok(())
}
