//! The types of columns.

ghost use Rattle.std.specs.Prelude.{◌≡◌, ◌∷◌, ◌++◌, IfOk, OnOk};
ghost use Rattle.std.specs.Option.{option_map};
ghost use Rattle.json.specs.Token.{key};
ghost use Rattle.json.specs.Tree.{json_tokens};
ghost use Rattle.message_lines.specs.Kinds.{is_number, kind_json, kind_key, kind_name, limit_in, limited_name, numeric_name, plain_name, unlimited_name};

use crate::parts::members::{put_number, put_text};
use json::Writer;
use pqformat::Text;
use std::alloc::{AllocError, Global};

/// The OIDs of the types whose names are known (PostgreSQL 15, pg_type).
pub(crate) const BOOL_OID: u32 = 16;

pub(crate) const BYTEA_OID: u32 = 17;

pub(crate) const INT8_OID: u32 = 20;

pub(crate) const INT2_OID: u32 = 21;

pub(crate) const INT4_OID: u32 = 23;

pub(crate) const TEXT_OID: u32 = 25;

pub(crate) const CHAR_OID: u32 = 1042;

pub(crate) const VARCHAR_OID: u32 = 1043;

pub(crate) const DATE_OID: u32 = 1082;

pub(crate) const TIME_OID: u32 = 1083;

pub(crate) const TIMESTAMP_OID: u32 = 1114;

pub(crate) const TIMESTAMPTZ_OID: u32 = 1184;

pub(crate) const NUMERIC_OID: u32 = 1700;

pub(crate) const UUID_OID: u32 = 2950;

/// The modifier of a type with nothing in parentheses.
const NO_MODIFIER: i32 = -1;

/// What is added to what stands in parentheses (PostgreSQL 15, `VARHDRSZ`).
const MODIFIER_OFFSET: i32 = 4;

/// The member that tells a type: its name, or its OID where no name is known.
pub(crate) fn put_kind(
    alloc: Global,
    out: &mut Writer,
    kind: u32,
    modifier: i32,
) -> Result<(), AllocError>
    ensures tokens { OnOk result
        (out.new.tokens
        ≡ out.old.tokens ++ key (kind_key (kind_name kind modifier))
        ∷ json_tokens (kind_json (kind_name kind modifier) kind)) }
    ensures before { out.new.before ≡ out.old.before }
{
    if let Some(name) = plain_name(kind, modifier) {
        return put_text(out, "type", name);
    }
    match limited_name(alloc, kind, modifier)? {
        Some(name) => put_text(out, "type", name.as_str()),
        None => put_number(out, "typeoid", u64::from(kind)),
    }
}

#[tactic(auto, unfolding(crate::specs::Kinds::plain_name))]
fn plain_name(kind: u32, modifier: i32) -> Option<&'static str>
    ensures { option_map (λ name. name.now) result ≡ plain_name kind modifier }
{
    match kind {
        BOOL_OID => Some("boolean"),
        INT8_OID => Some("bigint"),
        INT2_OID => Some("smallint"),
        INT4_OID => Some("integer"),
        TEXT_OID => Some("text"),
        UUID_OID => Some("uuid"),
        BYTEA_OID => Some("bytea"),
        DATE_OID => Some("date"),
        _ => unlimited_name(kind, modifier),
    }
}

/// The name of a type of which nothing is limited.
fn unlimited_name(kind: u32, modifier: i32) -> Option<&'static str>
    ensures { option_map (λ name. name.now) result ≡ unlimited_name kind modifier }
{
    if modifier != NO_MODIFIER {
        return None;
    }
    match kind {
        CHAR_OID => Some("bpchar"),
        VARCHAR_OID => Some("character varying"),
        NUMERIC_OID => Some("numeric"),
        TIME_OID => Some("time without time zone"),
        TIMESTAMP_OID => Some("timestamp without time zone"),
        TIMESTAMPTZ_OID => Some("timestamp with time zone"),
        _ => None,
    }
}

/// The name of a type, and in parentheses what it is limited to.
#[tactic(auto, unfolding(crate::specs::Kinds::limited_name))]
fn limited_name(alloc: Global, kind: u32, modifier: i32) -> Result<Option<Text>, AllocError>
    ensures { IfOk result (λ name. name ≡ limited_name kind modifier) }
{
    let Some(limit) = limit_in(modifier) else {
        return Ok(None);
    };
    match kind {
        CHAR_OID => {
            let name = format!(in alloc; "character({limit})")?;
            Ok(Some(Text::new(name)))
        }
        VARCHAR_OID => {
            let name = format!(in alloc; "character varying({limit})")?;
            Ok(Some(Text::new(name)))
        }
        NUMERIC_OID => numeric_name(alloc, limit),
        _ => Ok(None),
    }
}

/// None where fewer digits than those before the point are told.
fn numeric_name(alloc: Global, limit: u32) -> Result<Option<Text>, AllocError>
    ensures { IfOk result (λ name. name ≡ numeric_name limit) }
{
    let (precision, scale) = (limit / 65536, limit % 65536);
    if scale >= 1024 {
        return Ok(None);
    }
    let name = format!(in alloc; "numeric({precision},{scale})")?;
    Ok(Some(Text::new(name)))
}

/// What a modifier limits a type to.
fn limit_in(modifier: i32) -> Option<u32>
    ensures { result ≡ limit_in modifier }
{
    if modifier < MODIFIER_OFFSET {
        return None;
    }
    Some((modifier - MODIFIER_OFFSET).cast_unsigned())
}

/// Whether the values of the type are told as numbers.
pub(crate) fn is_number(kind: u32) -> bool
    ensures { result ≡ is_number kind }
{
    kind == INT2_OID || kind == INT4_OID || kind == INT8_OID || kind == NUMERIC_OID
}
