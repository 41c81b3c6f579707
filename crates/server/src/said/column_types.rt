//! The types of the columns of answers: their OIDs and sizes (PostgreSQL 15, 53.64).

ghost use Rattle.std.specs.Prelude.{◌≡◌, IfOk};
ghost use Rattle.server.specs.Said.{column_of};
ghost use Rattle.server.specs.TableAnswers.{oid_type, char_type, int2_type, int2vector_type, name_type, bool_type};

use crate::said::say::{ANY_SIZE, NO_MODIFIER, column};
use frames::{ColumnDescription, ColumnType};
use std::alloc::{AllocError, Global};

pub const OID_OID: u32 = 26;

pub const OID_SIZE: i16 = 4;

pub const CHAR_OID: u32 = 18;

pub const CHAR_SIZE: i16 = 1;

pub const INT2_OID: u32 = 21;

pub const INT2_SIZE: i16 = 2;

pub const INT2VECTOR_OID: u32 = 22;

pub const NAME_OID: u32 = 19;

pub const NAME_SIZE: i16 = 64;

pub const BOOL_OID: u32 = 16;

pub const BOOL_SIZE: i16 = 1;

pub(crate) fn oid_column(alloc: Global, name: &str) -> Result<ColumnDescription, AllocError>
    ensures { IfOk result (λ c. c ≡ column_of oid_type name.now) }
{
    let data_type = ColumnType {
        oid: OID_OID,
        size: OID_SIZE,
        modifier: NO_MODIFIER,
    };
    column(alloc, name, data_type)
}

pub(crate) fn char_column(alloc: Global, name: &str) -> Result<ColumnDescription, AllocError>
    ensures { IfOk result (λ c. c ≡ column_of char_type name.now) }
{
    let data_type = ColumnType {
        oid: CHAR_OID,
        size: CHAR_SIZE,
        modifier: NO_MODIFIER,
    };
    column(alloc, name, data_type)
}

pub(crate) fn int2_column(alloc: Global, name: &str) -> Result<ColumnDescription, AllocError>
    ensures { IfOk result (λ c. c ≡ column_of int2_type name.now) }
{
    let data_type = ColumnType {
        oid: INT2_OID,
        size: INT2_SIZE,
        modifier: NO_MODIFIER,
    };
    column(alloc, name, data_type)
}

pub(crate) fn int2vector_column(alloc: Global, name: &str) -> Result<ColumnDescription, AllocError>
    ensures { IfOk result (λ c. c ≡ column_of int2vector_type name.now) }
{
    let data_type = ColumnType {
        oid: INT2VECTOR_OID,
        size: ANY_SIZE,
        modifier: NO_MODIFIER,
    };
    column(alloc, name, data_type)
}

pub(crate) fn name_column(alloc: Global, name: &str) -> Result<ColumnDescription, AllocError>
    ensures { IfOk result (λ c. c ≡ column_of name_type name.now) }
{
    let data_type = ColumnType {
        oid: NAME_OID,
        size: NAME_SIZE,
        modifier: NO_MODIFIER,
    };
    column(alloc, name, data_type)
}

pub(crate) fn bool_column(alloc: Global, name: &str) -> Result<ColumnDescription, AllocError>
    ensures { IfOk result (λ c. c ≡ column_of bool_type name.now) }
{
    let data_type = ColumnType {
        oid: BOOL_OID,
        size: BOOL_SIZE,
        modifier: NO_MODIFIER,
    };
    column(alloc, name, data_type)
}
