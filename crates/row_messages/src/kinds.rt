//! The kinds of columns, and all that this crate knows of each: the type that a Relation tells, and a value as the cell of a tuple.

ghost use Rattle.std.specs.Prelude.{◌≡◌, ◌+◌, ◌<◌, ◌≤◌, ◌^◌, length};
ghost use Rattle.std.specs.Int.{cast_unsigned, w32};
ghost use Rattle.pgoutput.specs.Tuple.{cell};
ghost use Rattle.pgoutput.specs.declared.parts.tuple.Cell.TheVariants as cells;
ghost use Rattle.pqformat.specs.Writing.{FitsRoom, Writes};
ghost use Rattle.row_messages.specs.declared.kinds.TheConstants.{UUID_TEXT_LENGTH};
ghost use Rattle.row_messages.specs.Kinds.{cell_of, is_long, is_the_uuid, same_value, type_modifier, type_oid, uuid_text};
ghost use Rattle.tables.specs.Kinds.{value_of};

use itoa::Buffer;
use pgoutput::{NULL, TEXT};
use pqformat::{write_byte, write_bytes, write_int32};
use tables::{Kind, ValueRef, uuid_of_halves};
use uuid::Uuid;

/// The OIDs of the types (PostgreSQL 15, pg_type).
pub const BOOL_OID: u32 = 16;

pub const INT8_OID: u32 = 20;

pub const INT2_OID: u32 = 21;

pub const INT4_OID: u32 = 23;

pub const TEXT_OID: u32 = 25;

pub const UUID_OID: u32 = 2950;

/// The modifier of a column whose type has none.
pub const NO_MODIFIER: i32 = -1;

/// The longest text that the new tuple of an Update repeats though it didn't change, in bytes. PostgreSQL leaves out what it keeps
/// out of line, which begins at about this length.
pub(crate) const MOST_RESENT: usize = 2000;

pub(crate) fn oid_of(kind: Kind) -> u32
    ensures { result ≡ type_oid kind }
{
    match kind {
        Kind::Bool => BOOL_OID,
        Kind::Int2 => INT2_OID,
        Kind::Int4 => INT4_OID,
        Kind::Int8 => INT8_OID,
        Kind::Text => TEXT_OID,
        Kind::Uuid => UUID_OID,
        Kind::AsText(data_type) => data_type.oid(),
    }
}

fn modifier_of(kind: Kind) -> i32
    ensures { result ≡ type_modifier kind }
{
    match kind {
        Kind::AsText(data_type) => data_type.modifier(),
        Kind::Bool | Kind::Int2 | Kind::Int4 | Kind::Int8 => NO_MODIFIER,
        Kind::Text | Kind::Uuid => NO_MODIFIER,
    }
}

/// The modifier of a kind, as the field of a Relation has it.
pub(crate) fn modifier_field(kind: Kind) -> u32
    ensures { result ≡ cast_unsigned w32 (type_modifier kind) }
{
    modifier_of(kind).cast_unsigned()
}

/// How long the text of a UUID is.
pub(crate) const UUID_TEXT_LENGTH: usize = 36;

#[tactic(auto, unfolding(crate::specs::Kinds::uuid_text, tables::specs::Kinds::uuid_bytes))]
fn uuid_text<'r>(n: u128, room: &'r mut [u8]) -> &'r str
    requires { UUID_TEXT_LENGTH ≤ length room.old }
    ensures { result.now ≡ uuid_text n }
{
    Uuid::from_u128(n).hyphenated().encode_lower(room)
}

/// The cell of a text.
#[tactic(auto, using(crate::proofs::Written::sizes))]
fn put_text(out: &mut [u8], at: usize, text: &[u8]) -> usize
    requires room { at + (5 + length text.now) ≤ length out.old }
    requires short { length out.old < 2 ^ 31 }
    ensures { Writes at result out.old out.new (cell (cells.Text text.now)) }
{
    let marked = write_byte(out, at, TEXT);
    let sized = write_int32(out, marked, text.len() as u32);
    write_bytes(out, sized, text)
}

/// The cell of a value, at a place of a slice: bool is `t` or `f`, an integer its decimal digits, a text its bytes, a UUID its digits
/// between hyphens.
#[tactic(auto, using(crate::proofs::Written::sizes))]
pub(crate) fn put_cell(out: &mut [u8], at: usize, value: ValueRef<'_>) -> usize
    requires { FitsRoom at out.old (cell (cell_of (value_of value))) }
    ensures { Writes at result out.old out.new (cell (cell_of (value_of value.entry))) }
{
    match value {
        ValueRef::Null => write_byte(out, at, NULL),
        ValueRef::Bool(true) => put_text(out, at, b"t"),
        ValueRef::Bool(false) => put_text(out, at, b"f"),
        ValueRef::Int2(n) => {
            let mut digits = Buffer::new();
            put_text(out, at, digits.format(n).as_bytes())
        }
        ValueRef::Int4(n) => {
            let mut digits = Buffer::new();
            put_text(out, at, digits.format(n).as_bytes())
        }
        ValueRef::Int8(n) => {
            let mut digits = Buffer::new();
            put_text(out, at, digits.format(n).as_bytes())
        }
        ValueRef::Text(text) => put_text(out, at, text),
        ValueRef::Uuid(high, low) => {
            let mut room = [0; UUID_TEXT_LENGTH];
            let text = uuid_text(uuid_of_halves(high, low), &mut room);
            put_text(out, at, text.as_bytes())
        }
    }
}

/// Whether an Update leaves it out where it didn't change.
pub(crate) fn is_long(value: ValueRef<'_>) -> bool
    ensures { result ≡ is_long (value_of value.entry) }
{
    match value {
        ValueRef::Null | ValueRef::Bool(_) => false,
        ValueRef::Int2(_) | ValueRef::Int4(_) | ValueRef::Int8(_) => false,
        ValueRef::Text(text) => text.len() > MOST_RESENT,
        ValueRef::Uuid(_, _) => false,
    }
}

pub(crate) fn is_same(a: ValueRef<'_>, b: ValueRef<'_>) -> bool
    ensures { result ≡ same_value (value_of a.entry) (value_of b.entry) }
{
    match a {
        ValueRef::Null => matches!(b, ValueRef::Null),
        ValueRef::Bool(a) => matches!(b, ValueRef::Bool(b) if a == b),
        ValueRef::Int2(a) => matches!(b, ValueRef::Int2(b) if a == b),
        ValueRef::Int4(a) => matches!(b, ValueRef::Int4(b) if a == b),
        ValueRef::Int8(a) => matches!(b, ValueRef::Int8(b) if a == b),
        ValueRef::Text(a) => matches!(b, ValueRef::Text(b) if a == b),
        ValueRef::Uuid(high, low) => is_the_uuid(uuid_of_halves(high, low), b),
    }
}

fn is_the_uuid(a: u128, b: ValueRef<'_>) -> bool
    ensures { result ≡ is_the_uuid a (value_of b.entry) }
{
    match b {
        ValueRef::Uuid(high, low) => a == uuid_of_halves(high, low),
        _ => false,
    }
}
