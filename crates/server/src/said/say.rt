//! What the server says, at the end of a buffer.

ghost use Rattle.std.specs.Prelude.{◌≡◌, ◌<◌, ◌≤◌, ◌^◌, ◌++◌, ◌∷◌, [], length, OnOk, IfOk};
ghost use Rattle.std.specs.List.{AllByRecursion};
ghost use Rattle.frames.specs.Frame.{FitsLength};
ghost use Rattle.frames.specs.Back.{HasCounts, back_body};
ghost use Rattle.frames.specs.declared.backend.data_row.DataValue.TheVariants.{Bytes};
ghost use Rattle.frames.specs.declared.back.Back.TheVariants.{AuthenticationOk, ErrorResponse as ErrorFrame};
ghost use Rattle.pqformat.specs.Putting.{Puts};
ghost use Rattle.replcmd.specs.Position.{position_text};
ghost use Rattle.server.specs.Said.{sent_frame, error_frame, error_of_refusal, error_and_ready, ready, greeting, completion, status, column_of, text_type, int4_type, IsSmall, identity_columns, identity_values, slot_columns, slot_values, key_frame, columns_frame, values_frame, slot_made, answer_to_identify, answer_to_create, answer_to_drop};

use crate::asked::naming::say_slot_refused;
use crate::backend_fault::BackendFault;
use crate::refusal::Refusal;
use crate::said::answer_rows::{identity_columns, identity_values, slot_columns, slot_values};
use bytes::BytesMut;
use frames::{
    Back, BackendKeyData, ColumnDescription, ColumnType, CommandComplete, DataRow, DataValue,
    ErrorField, ErrorResponse, Parameter, RowDescription, TransactionStatus, write_back,
};
use pqformat::{Items, Text};
use replcmd::write_position;
use std::alloc::{AllocError, Global};

pub const TEXT_OID: u32 = 25;

pub const INT4_OID: u32 = 23;

pub const INT4_SIZE: i16 = 4;

/// The size of a type whose values have many.
pub const ANY_SIZE: i16 = -1;

pub const NO_MODIFIER: i32 = -1;

/// The attribute of a column that is no table's.
pub const NO_ATTRIBUTE: i16 = 0;

#[tactic(auto, using(pqformat::proofs::Putting::in_place), unfolding(crate::specs::Said::sent_frame))]
pub(crate) fn say(out: &mut BytesMut, frame: Back) -> Result<(), AllocError>
    requires length { FitsLength (back_body frame) }
    requires counts { HasCounts frame }
    ensures { Puts result out.old.items out.new.items (sent_frame frame) }
{
    let written = write_back(&frame, out);
    // Let go by one call, which keeps the proof short.
    drop(frame);
    written
}

#[tactic(auto, using(pqformat::proofs::Putting::in_place), unfolding(crate::specs::Said::ready, pqformat::specs::Fields::int32))]
pub(crate) fn say_ready(out: &mut BytesMut) -> Result<(), AllocError>
    ensures { Puts result out.old.items out.new.items ready }
{
    say(out, Back::ReadyForQuery(TransactionStatus::Idle))
}

fn error_field(alloc: Global, code: u8, text: &str) -> Result<ErrorField, AllocError>
    ensures { IfOk result (λ f. f ≡ record { code = code; text = text.now }) }
{
    Ok(ErrorField {
        code,
        text: Text::copy_of(alloc, text)?,
    })
}

fn push_field(
    alloc: Global,
    fields: &mut Vec<ErrorField>,
    code: u8,
    text: &str,
) -> Result<(), AllocError>
    ensures { OnOk result
        (fields.new.items ≡ fields.old.items ++ (record { code = code; text = text.now } ∷ [])) }
{
    let field = error_field(alloc, code, text)?;
    fields.push(field)?;
    Ok(())
}

fn error_fields(alloc: Global, code: &str, text: &str) -> Result<Items<ErrorField>, AllocError>
    ensures { IfOk result
        (λ fields. ErrorFrame (record { fields = fields }) ≡ error_frame code.now text.now) }
{
    let mut fields = Vec::new(alloc);
    push_field(alloc, &mut fields, b'S', "ERROR")?;
    push_field(alloc, &mut fields, b'V', "ERROR")?;
    push_field(alloc, &mut fields, b'C', code)?;
    push_field(alloc, &mut fields, b'M', text)?;
    Ok(Items::new(fields))
}

#[tactic(auto, using(pqformat::proofs::Putting::in_place))]
pub(crate) fn say_error(
    alloc: Global,
    out: &mut BytesMut,
    code: &str,
    text: &str,
) -> Result<(), AllocError>
    requires code { length code.now ≤ 40 }
    requires text { length text.now ≤ 120 }
    ensures { Puts result out.old.items out.new.items (sent_frame (error_frame code.now text.now)) }
{
    let fields = error_fields(alloc, code, text)?;
    say(out, Back::ErrorResponse(ErrorResponse { fields }))
}

/// That a session or a command is refused, in an ErrorResponse. `AllocError` where memory is refused; some of it may have been
/// added then.
#[tactic(auto, using(pqformat::proofs::Putting::in_place), unfolding(crate::specs::Said::error_of_refusal))]
pub fn say_refused(alloc: Global, out: &mut BytesMut, refusal: Refusal) -> Result<(), AllocError>
    ensures { Puts result out.old.items out.new.items (error_of_refusal refusal) }
{
    let (code, text) = refusal.told();
    say_error(alloc, out, code, text)
}

/// That a command is refused, and that the next one is waited for. `AllocError` where memory is refused; some of it may have
/// been added then.
#[tactic(auto, using(pqformat::proofs::Putting::in_place))]
pub fn say_refused_ready(
    alloc: Global,
    out: &mut BytesMut,
    refusal: Refusal,
) -> Result<(), AllocError>
    ensures { Puts result out.old.items out.new.items (error_and_ready refusal) }
{
    say_refused(alloc, out, refusal)?;
    say_ready(out)
}

#[tactic(auto, using(pqformat::proofs::Putting::in_place), unfolding(pqformat::specs::Fields::int32))]
pub(crate) fn say_status(
    alloc: Global,
    out: &mut BytesMut,
    name: &str,
    value: &str,
) -> Result<(), AllocError>
    requires name { length name.now ≤ 40 }
    requires value { length value.now ≤ 40 }
    ensures { Puts result out.old.items out.new.items (sent_frame (status name.now value.now)) }
{
    let name = Text::copy_of(alloc, name)?;
    let value = Text::copy_of(alloc, value)?;
    say(out, Back::ParameterStatus(Parameter { name, value }))
}

#[tactic(auto, using(pqformat::proofs::Putting::in_place), unfolding(pqformat::specs::Fields::int32))]
pub(crate) fn say_authenticated(out: &mut BytesMut) -> Result<(), AllocError>
    ensures { Puts result out.old.items out.new.items (sent_frame AuthenticationOk) }
{
    say(out, Back::AuthenticationOk)
}

#[tactic(auto, using(pqformat::proofs::Putting::in_place), unfolding(pqformat::specs::Fields::int32))]
pub(crate) fn say_key(out: &mut BytesMut, process: u32) -> Result<(), AllocError>
    ensures { Puts result out.old.items out.new.items (sent_frame (key_frame process)) }
{
    say(
        out,
        Back::BackendKeyData(BackendKeyData { process, key: 0 }),
    )
}

/// The beginning of a session on the connection of this number (PostgreSQL 15, 55.2.1). `AllocError` where memory is refused;
/// some of it may have been added then.
#[tactic(auto, using(pqformat::proofs::Putting::in_place), unfolding(crate::specs::Said::greeting))]
pub fn say_greeting(alloc: Global, out: &mut BytesMut, number: u32) -> Result<(), AllocError>
    ensures { Puts result out.old.items out.new.items (greeting number) }
{
    say_authenticated(out)?;
    say_status(alloc, out, "server_version", "15.0")?;
    say_status(alloc, out, "client_encoding", "UTF8")?;
    say_key(out, number)?;
    say_ready(out)
}

pub(crate) fn column(
    alloc: Global,
    name: &str,
    data_type: ColumnType,
) -> Result<ColumnDescription, AllocError>
    ensures { IfOk result (λ c. c ≡ column_of data_type name.now) }
{
    Ok(ColumnDescription {
        name: Text::copy_of(alloc, name)?,
        table: 0,
        attribute: NO_ATTRIBUTE,
        data_type,
        format: 0,
    })
}

pub(crate) fn text_column(alloc: Global, name: &str) -> Result<ColumnDescription, AllocError>
    ensures { IfOk result (λ c. c ≡ column_of text_type name.now) }
{
    let data_type = ColumnType {
        oid: TEXT_OID,
        size: ANY_SIZE,
        modifier: NO_MODIFIER,
    };
    column(alloc, name, data_type)
}

pub(crate) fn int4_column(alloc: Global, name: &str) -> Result<ColumnDescription, AllocError>
    ensures { IfOk result (λ c. c ≡ column_of int4_type name.now) }
{
    let data_type = ColumnType {
        oid: INT4_OID,
        size: INT4_SIZE,
        modifier: NO_MODIFIER,
    };
    column(alloc, name, data_type)
}

pub(crate) fn value(alloc: Global, text: &str) -> Result<DataValue, AllocError>
    ensures { IfOk result (λ v. v ≡ Bytes text.now) }
{
    let bytes = Vec::from_slice(alloc, text.as_bytes())?;
    Ok(DataValue::Bytes(Items::new(bytes)))
}

#[tactic(auto, using(pqformat::proofs::Putting::in_place), unfolding(pqformat::specs::Fields::int32))]
pub(crate) fn say_completed(alloc: Global, out: &mut BytesMut, tag: &str) -> Result<(), AllocError>
    requires { length tag.now ≤ 40 }
    ensures { Puts result out.old.items out.new.items (sent_frame (completion tag.now)) }
{
    let tag = Text::copy_of(alloc, tag)?;
    say(out, Back::CommandComplete(CommandComplete { tag }))
}

/// The answer of DROP_REPLICATION_SLOT (PostgreSQL 15, 55.4). `AllocError` where memory is refused; some of it may have been
/// added then.
#[tactic(auto, using(pqformat::proofs::Putting::in_place), unfolding(crate::specs::Said::answer_to_drop))]
pub fn say_dropped(
    alloc: Global,
    out: &mut BytesMut,
    slot: &str,
    answer: Result<(), BackendFault>,
) -> Result<(), AllocError>
    ensures { Puts result out.old.items out.new.items (answer_to_drop slot.now answer) }
{
    match answer {
        Ok(()) => {
            say_completed(alloc, out, "DROP_REPLICATION_SLOT")?;
            say_ready(out)
        }
        Err(fault) => say_slot_refused(alloc, out, fault, slot),
    }
}

pub(crate) fn position_value(alloc: Global, position: u64) -> Result<DataValue, AllocError>
    ensures value { IfOk result (λ v. v ≡ Bytes (position_text position)) }
    ensures small { IfOk result (λ _. length (position_text position) ≤ 17) }
{
    let text = write_position(alloc, position)?;
    value(alloc, text.as_str())
}

#[tactic(auto, using(pqformat::proofs::Putting::in_place))]
pub(crate) fn say_columns(
    out: &mut BytesMut,
    columns: Items<ColumnDescription>,
) -> Result<(), AllocError>
    requires count { length columns ≤ 4 }
    requires names { AllByRecursion (λ c. length c.name ≤ 63) columns }
    ensures { Puts result out.old.items out.new.items (sent_frame (columns_frame columns)) }
{
    say(out, Back::RowDescription(RowDescription { columns }))
}

#[tactic(auto, using(pqformat::proofs::Putting::in_place))]
pub(crate) fn say_values(out: &mut BytesMut, values: Items<DataValue>) -> Result<(), AllocError>
    requires count { length values ≤ 4 }
    requires each { AllByRecursion IsSmall values }
    ensures { Puts result out.old.items out.new.items (sent_frame (values_frame values)) }
{
    say(out, Back::DataRow(DataRow { values }))
}

#[tactic(auto, using(pqformat::proofs::Putting::in_place))]
fn say_identity_columns(alloc: Global, out: &mut BytesMut) -> Result<(), AllocError>
    ensures { Puts result out.old.items out.new.items (sent_frame identity_columns) }
{
    let columns = identity_columns(alloc)?;
    say_columns(out, columns)
}

#[tactic(auto, using(pqformat::proofs::Putting::in_place))]
fn say_identity_values(
    alloc: Global,
    out: &mut BytesMut,
    systemid: &str,
    end: u64,
    database: &str,
) -> Result<(), AllocError>
    requires systemid { length systemid.now ≤ 2 ^ 16 }
    requires database { length database.now ≤ 2 ^ 16 }
    ensures { Puts result out.old.items out.new.items
        (sent_frame (identity_values systemid.now end database.now)) }
{
    let values = identity_values(alloc, systemid, end, database)?;
    say_values(out, values)
}

/// The answer of IDENTIFY_SYSTEM (PostgreSQL 15, 55.4). `AllocError` where memory is refused; some of it may have been added
/// then.
#[tactic(auto, using(pqformat::proofs::Putting::in_place), unfolding(crate::specs::Said::answer_to_identify))]
pub fn say_identified(
    alloc: Global,
    out: &mut BytesMut,
    systemid: &str,
    end: u64,
    database: &str,
) -> Result<(), AllocError>
    requires systemid { length systemid.now ≤ 2 ^ 16 }
    requires database { length database.now ≤ 2 ^ 16 }
    ensures { Puts result out.old.items out.new.items
        (answer_to_identify systemid.now end database.now) }
{
    say_identity_columns(alloc, out)?;
    say_identity_values(alloc, out, systemid, end, database)?;
    say_completed(alloc, out, "IDENTIFY_SYSTEM")?;
    say_ready(out)
}

#[tactic(auto, using(pqformat::proofs::Putting::in_place))]
fn say_slot_columns(alloc: Global, out: &mut BytesMut) -> Result<(), AllocError>
    ensures { Puts result out.old.items out.new.items (sent_frame slot_columns) }
{
    let columns = slot_columns(alloc)?;
    say_columns(out, columns)
}

#[tactic(auto, using(pqformat::proofs::Putting::in_place))]
fn say_slot_values(
    alloc: Global,
    out: &mut BytesMut,
    slot: &str,
    position: u64,
) -> Result<(), AllocError>
    requires { length slot.now ≤ 2 ^ 16 }
    ensures { Puts result out.old.items out.new.items (sent_frame (slot_values slot.now position)) }
{
    let values = slot_values(alloc, slot, position)?;
    say_values(out, values)
}

#[tactic(auto, using(pqformat::proofs::Putting::in_place), unfolding(crate::specs::Said::slot_made))]
fn say_slot(alloc: Global, out: &mut BytesMut, slot: &str, position: u64) -> Result<(), AllocError>
    requires { length slot.now ≤ 2 ^ 16 }
    ensures { Puts result out.old.items out.new.items (slot_made slot.now position) }
{
    say_slot_columns(alloc, out)?;
    say_slot_values(alloc, out, slot, position)?;
    say_completed(alloc, out, "CREATE_REPLICATION_SLOT")?;
    say_ready(out)
}

/// The answer of CREATE_REPLICATION_SLOT (PostgreSQL 15, 55.4). `AllocError` where memory is refused; some of it may have been
/// added then.
#[tactic(auto, using(pqformat::proofs::Putting::in_place), unfolding(crate::specs::Said::answer_to_create))]
pub fn say_created(
    alloc: Global,
    out: &mut BytesMut,
    slot: &str,
    answer: Result<u64, BackendFault>,
) -> Result<(), AllocError>
    requires { length slot.now ≤ 2 ^ 16 }
    ensures { Puts result out.old.items out.new.items (answer_to_create slot.now answer) }
{
    match answer {
        Ok(position) => say_slot(alloc, out, slot, position),
        Err(fault) => say_slot_refused(alloc, out, fault, slot),
    }
}
