//! The rows of answers: their columns and their values.

ghost use Rattle.std.specs.Prelude.{◌≡◌, ◌≤◌, ◌++◌, ◌∷◌, [], length, codes, OnOk, IfOk};
ghost use Rattle.frames.specs.declared.backend.data_row.DataValue.TheVariants.{Bytes, Null};
ghost use Rattle.replcmd.specs.Position.{position_text};
ghost use Rattle.server.specs.Said.{column_of, text_type, int4_type};

use crate::said::say::{int4_column, position_value, text_column, value};
use frames::{ColumnDescription, DataValue};
use pqformat::Items;
use std::alloc::{AllocError, Global};

fn push_text_column(
    alloc: Global,
    columns: &mut Vec<ColumnDescription>,
    name: &str,
) -> Result<(), AllocError>
    ensures { OnOk result
        (columns.new.items ≡ columns.old.items ++ (column_of text_type name.now ∷ [])) }
{
    let column = text_column(alloc, name)?;
    columns.push(column)?;
    Ok(())
}

fn push_int4_column(
    alloc: Global,
    columns: &mut Vec<ColumnDescription>,
    name: &str,
) -> Result<(), AllocError>
    ensures { OnOk result
        (columns.new.items ≡ columns.old.items ++ (column_of int4_type name.now ∷ [])) }
{
    let column = int4_column(alloc, name)?;
    columns.push(column)?;
    Ok(())
}

fn push_value(alloc: Global, values: &mut Vec<DataValue>, text: &str) -> Result<(), AllocError>
    ensures { OnOk result (values.new.items ≡ values.old.items ++ (Bytes text.now ∷ [])) }
{
    let value = value(alloc, text)?;
    values.push(value)?;
    Ok(())
}

fn push_position(
    alloc: Global,
    values: &mut Vec<DataValue>,
    position: u64,
) -> Result<(), AllocError>
    ensures value { OnOk result
        (values.new.items ≡ values.old.items ++ (Bytes (position_text position) ∷ [])) }
    ensures small { OnOk result (length (position_text position) ≤ 17) }
{
    let value = position_value(alloc, position)?;
    values.push(value)?;
    Ok(())
}

pub(crate) fn identity_columns(alloc: Global) -> Result<Items<ColumnDescription>, AllocError>
    ensures { IfOk result
        (λ columns. columns
        ≡ column_of text_type (codes "systemid") ∷ column_of int4_type (codes "timeline")
        ∷ column_of text_type (codes "xlogpos") ∷ column_of text_type (codes "dbname") ∷ []) }
{
    let mut columns = Vec::new(alloc);
    push_text_column(alloc, &mut columns, "systemid")?;
    push_int4_column(alloc, &mut columns, "timeline")?;
    push_text_column(alloc, &mut columns, "xlogpos")?;
    push_text_column(alloc, &mut columns, "dbname")?;
    Ok(Items::new(columns))
}

pub(crate) fn identity_values(
    alloc: Global,
    systemid: &str,
    end: u64,
    database: &str,
) -> Result<Items<DataValue>, AllocError>
    ensures value { IfOk result
        (λ values. values
        ≡ Bytes systemid.now ∷ Bytes (codes "1") ∷ Bytes (position_text end) ∷ Bytes database.now
        ∷ []) }
    ensures small { IfOk result (λ _. length (position_text end) ≤ 17) }
{
    let mut values = Vec::new(alloc);
    push_value(alloc, &mut values, systemid)?;
    push_value(alloc, &mut values, "1")?;
    push_position(alloc, &mut values, end)?;
    push_value(alloc, &mut values, database)?;
    Ok(Items::new(values))
}

pub(crate) fn slot_columns(alloc: Global) -> Result<Items<ColumnDescription>, AllocError>
    ensures { IfOk result
        (λ columns. columns
        ≡ column_of text_type (codes "slot_name") ∷ column_of text_type (codes "consistent_point")
        ∷ column_of text_type (codes "snapshot_name") ∷ column_of text_type (codes "output_plugin")
        ∷ []) }
{
    let mut columns = Vec::new(alloc);
    push_text_column(alloc, &mut columns, "slot_name")?;
    push_text_column(alloc, &mut columns, "consistent_point")?;
    push_text_column(alloc, &mut columns, "snapshot_name")?;
    push_text_column(alloc, &mut columns, "output_plugin")?;
    Ok(Items::new(columns))
}

pub(crate) fn slot_values(
    alloc: Global,
    slot: &str,
    position: u64,
) -> Result<Items<DataValue>, AllocError>
    ensures value { IfOk result
        (λ values. values
        ≡ Bytes slot.now ∷ Bytes (position_text position) ∷ Null ∷ Bytes (codes "pgoutput") ∷ []) }
    ensures small { IfOk result (λ _. length (position_text position) ≤ 17) }
{
    let mut values = Vec::new(alloc);
    push_value(alloc, &mut values, slot)?;
    push_position(alloc, &mut values, position)?;
    values.push(DataValue::Null)?;
    push_value(alloc, &mut values, "pgoutput")?;
    Ok(Items::new(values))
}
