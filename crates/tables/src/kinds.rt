//! The kinds of columns, and all that this crate knows of each: its values, its name in a configuration, and how the log keeps it.

ghost use Rattle.std.specs.Prelude.{◌≡◌, ◌≢◌, ◌*◌, ◌+◌, ◌++◌, ◌∷◌, [], ◌<◌, ◌≤◌, ◌^◌, Err, Ok, IfErr, IfOk, IsOk, OnErr, OnOk, length, if◌then◌else◌};
ghost use Rattle.std.specs.Int.{w16, w32, w64};
ghost use Rattle.pqformat.specs.Putting.{Puts};
ghost use Rattle.pqformat.specs.Steps.{letter_at, signed_at};
ghost use Rattle.pqformat.specs.Writing.{FitsRoom, Writes};
ghost use Rattle.tables.specs.declared.fault.BodyFault.TheVariants.{Short, BadBool, Memory};
ghost use Rattle.tables.specs.declared.rows.row.TheConstants.{MAX_ROW_LENGTH};
ghost use Rattle.tables.specs.Kinds.{IsValue, bool_of, has_no_zero, identifies, is_of_kind, is_sent, kind_named, spell_value, text_at, uuid_at, uuid_bytes, value_at, value_of};
ghost use Rattle.tables.specs.Reading.{Gives};

use crate::fault::BodyFault;
use crate::rows::uuids::halves_of_uuid;
use bytes::{BufMut, BytesMut};
use data_types::DataType;
use pqformat::{
    Cursor, Text, put_int16, put_int32, put_int64, utf8_of, write_byte, write_bytes, write_int16,
    write_int32, write_int64,
};
use std::alloc::{AllocError, Global};
use uuid::Uuid;

/// The type of a column.
#[derive(Clone, Copy, Debug)]
pub enum Kind {
    Bool,
    Int2,
    Int4,
    Int8,
    Text,
    Uuid,
    /// A type whose values are kept as the texts that PostgreSQL sends of them.
    AsText(DataType),
}

/// What a row holds in one column; a UUID is the number of its bytes, the highest first.
#[derive(Debug, Drop, PartialEq)]
pub enum Value {
    Null,
    Bool(bool),
    Int2(i16),
    Int4(i32),
    Int8(i64),
    Text(Text),
    Uuid(u128),
}

/// What a row holds in one column; a text is its bytes, where they lie, and a UUID two halves, with which a value is 24 bytes long, and
/// not 32.
#[derive(Clone, Copy)]
pub enum ValueRef<'a> {
    Null,
    Bool(bool),
    Int2(i16),
    Int4(i32),
    Int8(i64),
    Text(&'a [u8]),
    Uuid(u64, u64),
}

/// The first byte of a value in a row, by its kind.
pub const NULL_TAG: u8 = 0;

pub const BOOL_TAG: u8 = 1;

pub const INT4_TAG: u8 = 2;

pub const INT8_TAG: u8 = 3;

pub const TEXT_TAG: u8 = 4;

pub const INT2_TAG: u8 = 5;

pub const UUID_TAG: u8 = 6;

impl Kind {
    /// The kind of this name in a configuration. None where none has it.
    pub fn named(name: &str) -> Option<Kind>
        ensures { result ≡ kind_named name.now }
    {
        match name {
            "bool" => Some(Kind::Bool),
            "int2" => Some(Kind::Int2),
            "int4" => Some(Kind::Int4),
            "int8" => Some(Kind::Int8),
            "text" => Some(Kind::Text),
            "uuid" => Some(Kind::Uuid),
            _ => Some(Kind::AsText(DataType::named(name)?)),
        }
    }

    /// Whether the value is one of this kind. A text has no zero byte; null is of no kind.
    pub fn holds(self, value: ValueRef<'_>) -> bool
        ensures { result ≡ is_of_kind self (value_of value.entry) }
    {
        match self {
            Kind::Bool => matches!(value, ValueRef::Bool(_)),
            Kind::Int2 => matches!(value, ValueRef::Int2(_)),
            Kind::Int4 => matches!(value, ValueRef::Int4(_)),
            Kind::Int8 => matches!(value, ValueRef::Int8(_)),
            Kind::Text => matches!(value, ValueRef::Text(text) if is_without_zero(text)),
            Kind::Uuid => matches!(value, ValueRef::Uuid(_, _)),
            Kind::AsText(data_type) => is_sent(data_type, value),
        }
    }

    /// Whether two values are equal only if they are the same here, so that a key may have such a column.
    pub fn identifies(self) -> bool
        ensures { result ≡ identifies self }
    {
        match self {
            Kind::AsText(data_type) => data_type.has_one_text(),
            Kind::Bool | Kind::Int2 | Kind::Int4 | Kind::Int8 | Kind::Text | Kind::Uuid => true,
        }
    }
}

/// Whether the value is a text that PostgreSQL sends of one of this type.
fn is_sent(data_type: DataType, value: ValueRef<'_>) -> bool
    ensures { result ≡ is_sent data_type (value_of value.entry) }
{
    match value {
        ValueRef::Text(text) => data_type.is_sent(text),
        _ => false,
    }
}

/// Whether none of the bytes is zero.
pub fn is_without_zero(text: &[u8]) -> bool
    ensures { result ≡ has_no_zero text.now }
{
    text.iter().all(|b| *b != 0)
}

impl Value {
    /// A copy; `AllocError` where memory for it is refused.
    pub fn copy(&self, alloc: Global) -> Result<Self, AllocError>
        ensures { IfOk result (λ v. v ≡ self.now) }
    {
        match self {
            Value::Null => Ok(Value::Null),
            Value::Bool(b) => Ok(Value::Bool(*b)),
            Value::Int2(n) => Ok(Value::Int2(*n)),
            Value::Int4(n) => Ok(Value::Int4(*n)),
            Value::Int8(n) => Ok(Value::Int8(*n)),
            Value::Text(text) => Ok(Value::Text(text.copy(alloc)?)),
            Value::Uuid(n) => Ok(Value::Uuid(*n)),
        }
    }

    /// The same, with its text where it lies.
    pub fn lend(&self) -> ValueRef<'_>
        ensures { value_of result ≡ self.now }
    {
        match self {
            Value::Null => ValueRef::Null,
            Value::Bool(b) => ValueRef::Bool(*b),
            Value::Int2(n) => ValueRef::Int2(*n),
            Value::Int4(n) => ValueRef::Int4(*n),
            Value::Int8(n) => ValueRef::Int8(*n),
            Value::Text(text) => ValueRef::Text(text.as_str().as_bytes()),
            Value::Uuid(n) => {
                let (high, low) = halves_of_uuid(*n);
                ValueRef::Uuid(high, low)
            }
        }
    }
}

/// The length of the value's coding in bytes.
#[tactic(auto, using(crate::proofs::Values::lengths, pqformat::proofs::Texts::valid_text))]
pub(crate) fn coded_len_of(value: &Value) -> usize
    ensures value { result ≡ length (spell_value value.now) }
    ensures in_range { IsValue value.now }
    ensures bounded { result < 2 ^ 63 + 5 }
{
    match value {
        Value::Null => 1,
        Value::Bool(_) => 2,
        Value::Int2(n) => {
            let _in_range = *n;
            3
        }
        Value::Int4(n) => {
            let _in_range = *n;
            5
        }
        Value::Int8(n) => {
            let _in_range = *n;
            9
        }
        Value::Text(text) => 5 + text.as_str().len(),
        Value::Uuid(n) => {
            let _in_range = *n;
            17
        }
    }
}

#[tactic(auto, using(pqformat::proofs::Putting::extends_itself, pqformat::proofs::Putting::extends_more, pqformat::proofs::Putting::extends_back))]
pub(crate) fn put_value(value: &Value, out: &mut BytesMut) -> Result<(), AllocError>
    requires { length (spell_value value.now) ≤ MAX_ROW_LENGTH }
    ensures { Puts result out.old.items out.new.items (spell_value value.now) }
{
    match value {
        Value::Null => out.put_u8(NULL_TAG),
        Value::Bool(b) => {
            out.put_u8(BOOL_TAG)?;
            out.put_u8(*b as u8)
        }
        Value::Int2(n) => {
            out.put_u8(INT2_TAG)?;
            put_int16(out, n.cast_unsigned())
        }
        Value::Int4(n) => {
            out.put_u8(INT4_TAG)?;
            put_int32(out, n.cast_unsigned())
        }
        Value::Int8(n) => {
            out.put_u8(INT8_TAG)?;
            put_int64(out, n.cast_unsigned())
        }
        Value::Text(text) => {
            let bytes = text.as_str().as_bytes();
            out.put_u8(TEXT_TAG)?;
            put_int32(out, bytes.len() as u32)?;
            out.put_slice(bytes)
        }
        Value::Uuid(n) => {
            out.put_u8(UUID_TAG)?;
            put_uuid(out, *n)
        }
    }
}

#[tactic(auto, unfolding(crate::specs::Kinds::uuid_bytes))]
fn put_uuid(out: &mut BytesMut, n: u128) -> Result<(), AllocError>
    ensures ok { OnOk result (out.new.items ≡ out.old.items ++ uuid_bytes n) }
    ensures err { OnErr result (out.new.items ≡ out.old.items) }
{
    out.put_u128(n)
}

/// Writes the value's coding at a place of a slice, and answers where it ends.
#[tactic(auto, using(crate::proofs::Values::lengths))]
pub fn write_value(value: &Value, out: &mut [u8], at: usize) -> usize
    requires { FitsRoom at out.old (spell_value value.now) }
    ensures { Writes at result out.old out.new (spell_value value.now) }
{
    match value {
        Value::Null => write_byte(out, at, NULL_TAG),
        Value::Bool(b) => {
            let tagged = write_byte(out, at, BOOL_TAG);
            write_byte(out, tagged, *b as u8)
        }
        Value::Int2(n) => {
            let tagged = write_byte(out, at, INT2_TAG);
            write_int16(out, tagged, n.cast_unsigned())
        }
        Value::Int4(n) => {
            let tagged = write_byte(out, at, INT4_TAG);
            write_int32(out, tagged, n.cast_unsigned())
        }
        Value::Int8(n) => {
            let tagged = write_byte(out, at, INT8_TAG);
            write_int64(out, tagged, n.cast_unsigned())
        }
        Value::Text(text) => {
            let bytes = text.as_str().as_bytes();
            let tagged = write_byte(out, at, TEXT_TAG);
            let sized = write_int32(out, tagged, bytes.len() as u32);
            write_bytes(out, sized, bytes)
        }
        Value::Uuid(n) => {
            let tagged = write_byte(out, at, UUID_TAG);
            write_uuid(out, tagged, *n)
        }
    }
}

#[tactic(auto, unfolding(crate::specs::Kinds::uuid_bytes))]
fn write_uuid(out: &mut [u8], at: usize, n: u128) -> usize
    requires { at + 16 ≤ length out.old }
    ensures { Writes at result out.old out.new (uuid_bytes n) }
{
    write_bytes(out, at, &n.to_be_bytes())
}

/// The value at the front of the bytes, copied.
#[tactic(auto, unfolding(crate::specs::Kinds::value_at))]
pub(crate) fn read_value(alloc: Global, cursor: &mut Cursor<'_>) -> Result<Value, BodyFault>
    ensures exact { Gives result cursor.new (value_at cursor.old) }
    ensures memory { result ≡ Err Memory → IsOk (value_at cursor.old) }
{
    match cursor.u8().ok_or(BodyFault::Short)? {
        NULL_TAG => Ok(Value::Null),
        BOOL_TAG => Ok(Value::Bool(bool_in(cursor)?)),
        INT4_TAG => Ok(Value::Int4(i32_in(cursor)?)),
        INT8_TAG => Ok(Value::Int8(i64_in(cursor)?)),
        TEXT_TAG => Ok(Value::Text(text_of(alloc, cursor)?)),
        INT2_TAG => Ok(Value::Int2(i16_in(cursor)?)),
        UUID_TAG => Ok(Value::Uuid(uuid_in(cursor)?)),
        _ => Err(BodyFault::UnknownTag),
    }
}

/// The same where it lies.
#[tactic(auto, unfolding(crate::specs::Kinds::value_at))]
pub(crate) fn lend_value<'a>(cursor: &mut Cursor<'a>) -> Result<ValueRef<'a>, BodyFault>
    ensures found { IfOk result (λ value. value_at cursor.old ≡ Ok (value_of value, cursor.new)) }
    ensures fails { IfErr result (λ fault. value_at cursor.old ≡ Err fault) }
{
    match cursor.u8().ok_or(BodyFault::Short)? {
        NULL_TAG => Ok(ValueRef::Null),
        BOOL_TAG => Ok(ValueRef::Bool(bool_in(cursor)?)),
        INT4_TAG => Ok(ValueRef::Int4(i32_in(cursor)?)),
        INT8_TAG => Ok(ValueRef::Int8(i64_in(cursor)?)),
        TEXT_TAG => Ok(ValueRef::Text(text_in(cursor)?)),
        INT2_TAG => Ok(ValueRef::Int2(i16_in(cursor)?)),
        UUID_TAG => {
            let (high, low) = halves_of_uuid(uuid_in(cursor)?);
            Ok(ValueRef::Uuid(high, low))
        }
        _ => Err(BodyFault::UnknownTag),
    }
}

fn bool_in(cursor: &mut Cursor<'_>) -> Result<bool, BodyFault>
    ensures exact { Gives result cursor.new (letter_at Short BadBool bool_of cursor.old) }
    ensures no_memory { result ≢ Err Memory }
{
    match cursor.u8().ok_or(BodyFault::Short)? {
        0 => Ok(false),
        1 => Ok(true),
        _ => Err(BodyFault::BadBool),
    }
}

fn i16_in(cursor: &mut Cursor<'_>) -> Result<i16, BodyFault>
    ensures exact { Gives result cursor.new (signed_at Short w16 cursor.old) }
    ensures no_memory { result ≢ Err Memory }
{
    let n = cursor.u16().ok_or(BodyFault::Short)?;
    Ok(n.cast_signed())
}

fn i32_in(cursor: &mut Cursor<'_>) -> Result<i32, BodyFault>
    ensures exact { Gives result cursor.new (signed_at Short w32 cursor.old) }
    ensures no_memory { result ≢ Err Memory }
{
    let n = cursor.u32().ok_or(BodyFault::Short)?;
    Ok(n.cast_signed())
}

fn i64_in(cursor: &mut Cursor<'_>) -> Result<i64, BodyFault>
    ensures exact { Gives result cursor.new (signed_at Short w64 cursor.old) }
    ensures no_memory { result ≢ Err Memory }
{
    let n = cursor.u64().ok_or(BodyFault::Short)?;
    Ok(n.cast_signed())
}

fn uuid_in(cursor: &mut Cursor<'_>) -> Result<u128, BodyFault>
    ensures exact { Gives result cursor.new (uuid_at cursor.old) }
    ensures no_memory { result ≢ Err Memory }
{
    let bytes = cursor.take(16).ok_or(BodyFault::Short)?;
    match Uuid::from_slice(bytes) {
        Ok(uuid) => Ok(uuid.as_u128()),
        Err(_) => Err(BodyFault::Short),
    }
}

#[tactic(auto, unfolding(crate::specs::Kinds::text_at))]
fn text_of(alloc: Global, cursor: &mut Cursor<'_>) -> Result<Text, BodyFault>
    ensures exact { Gives result cursor.new (text_at cursor.old) }
    ensures memory { result ≡ Err Memory → IsOk (text_at cursor.old) }
{
    let len = cursor.u32().ok_or(BodyFault::Short)?;
    let bytes = cursor.take(len as usize).ok_or(BodyFault::Short)?;
    let text = utf8_of(bytes).ok_or(BodyFault::BadText)?;
    Ok(Text::copy_of(alloc, text)?)
}

#[tactic(auto, unfolding(crate::specs::Kinds::text_at))]
fn text_in<'a>(cursor: &mut Cursor<'a>) -> Result<&'a [u8], BodyFault>
    ensures found { IfOk result (λ text. text_at cursor.old ≡ Ok (text.now, cursor.new)) }
    ensures fails { IfErr result (λ fault. text_at cursor.old ≡ Err fault) }
{
    let len = cursor.u32().ok_or(BodyFault::Short)?;
    let bytes = cursor.take(len as usize).ok_or(BodyFault::Short)?;
    utf8_of(bytes).ok_or(BodyFault::BadText)?;
    Ok(bytes)
}
