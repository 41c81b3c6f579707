//! The frames that the server sends: the enum over them, its reader and its writer.

ghost use Rattle.std.specs.Prelude.{◌≡◌, ◌<◌, ◌≤◌, ◌++◌, List, ℕ, length, take, true, Ok, Err, Some, None, IsOkAnd, IfOk, IfErr, IfSome, OnOk, OnErr};
ghost use Rattle.frames.specs.Frame.{FitsLength, frame, Gives, IsKept};
ghost use Rattle.pqformat.specs.Putting.{Puts};
ghost use Rattle.frames.specs.Back.{back_kind, back_body, back_limit, back_needs_memory, back_at, list_at, framed_back, SpellsBack, IsShortBack, IsBackFault, HasCounts};

use crate::backend::authentication_ok::{AUTHENTICATION, authentication_of};
use crate::backend::backend_key_data::{
    BACKEND_KEY_DATA, BackendKeyData, backend_key_of, put_backend_key,
};
use crate::backend::command_complete::{COMMAND_COMPLETE, CommandComplete};
use crate::backend::copy_both_response::{COPY_BOTH_RESPONSE, CopyBothResponse, copy_both_of};
use crate::backend::data_row::{DATA_ROW, DataRow, data_row_of};
use crate::backend::error_response::{ERROR_RESPONSE, ErrorResponse};
use crate::backend::parameter_status::{
    PARAMETER_STATUS, parameter_len, parameter_status_of, put_parameter,
};
use crate::backend::ready_for_query::{READY_FOR_QUERY, TransactionStatus, ready_of};
use crate::backend::row_description::{ROW_DESCRIPTION, RowDescription};
use crate::copy_data::{COPY_DATA, CopyData, copy_data_len, copy_data_of, put_copy_data};
use crate::copy_done::COPY_DONE;
use crate::fault::FrameFault;
use crate::frontend::parameter::Parameter;
use crate::parts::body::{nothing_of, only_text};
use crate::parts::frame::{FRAME_LIMIT, body_of, put_head};
use crate::parts::list::{counted_of, items_len, listed, put_closed, put_counted};
use bytes::BytesMut;
use pqformat::{Cursor, put_byte, put_int32, put_string, whole_or_nothing};
use std::alloc::{AllocError, Global};

/// A frame that the server sends (PostgreSQL 15, 55.7).
///
/// `write_back` adds it to the bytes to be sent. `read_back` is its converse, for those who read a server: `None` is to
/// wait for more bytes, and `Some` is a frame and the count of bytes to drop from the front.
#[derive(Debug, Drop)]
pub enum Back {
    AuthenticationOk,
    ParameterStatus(Parameter),
    BackendKeyData(BackendKeyData),
    ReadyForQuery(TransactionStatus),
    CommandComplete(CommandComplete),
    RowDescription(RowDescription),
    DataRow(DataRow),
    ErrorResponse(ErrorResponse),
    CopyBothResponse(CopyBothResponse),
    CopyData(CopyData),
    CopyDone,
}

/// The frame at the front of the bytes, and how many of them it takes; None while it isn't there whole.
///
/// A type byte that no frame has is `UnknownType` (F3) at once; a length under 4 is `BadLength` (F1), and one over the limit of
/// its frames `TooLong` (F6), as soon as it is there. Once the frame is there whole, a body that isn't one of its frame is
/// `BadBody` (F4), a text that isn't UTF-8 `NotUtf8` (F5). `Memory` (F7) is answered only where a frame stands that is right
/// and needs memory.
pub fn read_back(alloc: Global, bytes: &[u8]) -> Result<Option<(Back, usize)>, FrameFault>
    // What is read stands at the front, spelled so.
    ensures found { IfOk result
        (λ o. IfSome o
        (λ x. (x.1 ≤ length bytes.now) × SpellsBack (take x.1 bytes.now) x.0
        × IsShortBack x.0)) }
    // What is spelled at the front is read, whatever follows it, unless memory runs out.
    ensures only { (text rest : List ℕ) (f : Back) → SpellsBack text f → IsShortBack f →
        bytes.now ≡ text ++ rest → Gives result (Ok (Some (f, length text))) }
    // A front of a spelling that isn't the whole is waited on.
    ensures waits { (text more : List ℕ) (f : Back) → SpellsBack text f → IsShortBack f →
        text ≡ bytes.now ++ more → length bytes.now < length text → result ≡ Ok None }
    // A fault stands in the bytes.
    ensures fault { IfErr result (λ e. IsBackFault e bytes.now) }
    // Which fault it is, in the order in which the bytes are judged.
    ensures exact { Gives result (framed_back bytes.now) }
    // Want of memory is answered only where nothing else is, and a frame stands that needs it.
    ensures memory { result ≡ Err FrameFault.Memory →
        IsKept back_needs_memory (framed_back bytes.now) }
{
    back_of(alloc, bytes)
}

fn back_of(alloc: Global, bytes: &[u8]) -> Result<Option<(Back, usize)>, FrameFault>
    ensures exact { Gives result (framed_back bytes.now) }
    ensures memory { result ≡ Err FrameFault.Memory →
        IsKept back_needs_memory (framed_back bytes.now) }
{
    let mut cursor = Cursor::new(bytes);
    let Some(kind) = cursor.u8() else {
        return Ok(None);
    };
    let Some((body, size)) = body_of(&mut cursor, limit_of(kind))? else {
        return Ok(None);
    };
    let frame = whole_of(alloc, kind, body)?;
    Ok(Some((frame, size)))
}

fn limit_of(kind: u8) -> Option<u32>
    ensures { result ≡ back_limit kind }
{
    match kind {
        AUTHENTICATION
        | PARAMETER_STATUS
        | BACKEND_KEY_DATA
        | READY_FOR_QUERY
        | COMMAND_COMPLETE
        | ROW_DESCRIPTION
        | DATA_ROW
        | ERROR_RESPONSE
        | COPY_BOTH_RESPONSE
        | COPY_DATA
        | COPY_DONE => Some(FRAME_LIMIT),
        _ => None,
    }
}

#[tactic(auto, unfolding(crate::specs::Back::back_at))]
fn whole_of(alloc: Global, kind: u8, body: &[u8]) -> Result<Back, FrameFault>
    ensures exact { Gives result (back_at kind body.now) }
    ensures memory { result ≡ Err FrameFault.Memory →
        IsOkAnd (back_at kind body.now) (λ f. back_needs_memory f ≡ true) }
{
    match kind {
        AUTHENTICATION => {
            authentication_of(body)?;
            Ok(Back::AuthenticationOk)
        }
        PARAMETER_STATUS => Ok(Back::ParameterStatus(parameter_status_of(alloc, body)?)),
        BACKEND_KEY_DATA => {
            let (process, key) = backend_key_of(body)?;
            Ok(Back::BackendKeyData(BackendKeyData { process, key }))
        }
        READY_FOR_QUERY => Ok(Back::ReadyForQuery(ready_of(body)?)),
        COMMAND_COMPLETE => {
            let tag = only_text(alloc, body)?;
            Ok(Back::CommandComplete(CommandComplete { tag }))
        }
        COPY_BOTH_RESPONSE => Ok(Back::CopyBothResponse(copy_both_of(alloc, body)?)),
        COPY_DATA => Ok(Back::CopyData(copy_data_of(alloc, body)?)),
        COPY_DONE => {
            nothing_of(body)?;
            Ok(Back::CopyDone)
        }
        _ => list_of(alloc, kind, body),
    }
}

/// The frames that are a list.
#[tactic(auto, unfolding(crate::specs::Back::list_at))]
fn list_of(alloc: Global, kind: u8, body: &[u8]) -> Result<Back, FrameFault>
    ensures exact { Gives result (list_at kind body.now) }
    ensures memory { result ≡ Err FrameFault.Memory →
        IsOkAnd (list_at kind body.now) (λ f. back_needs_memory f ≡ true) }
{
    match kind {
        ROW_DESCRIPTION => {
            let columns = counted_of(alloc, &mut Cursor::new(body))?;
            Ok(Back::RowDescription(RowDescription { columns }))
        }
        DATA_ROW => {
            let values = data_row_of(alloc, body)?;
            Ok(Back::DataRow(DataRow { values }))
        }
        ERROR_RESPONSE => {
            let fields = listed(alloc, body)?;
            Ok(Back::ErrorResponse(ErrorResponse { fields }))
        }
        _ => Err(FrameFault::UnknownType),
    }
}

/// Adds the frame at the end of `out`. `AllocError` where memory is refused; nothing is added then.
pub fn write_back(message: &Back, out: &mut BytesMut) -> Result<(), AllocError>
    requires length { FitsLength (back_body message.now) }
    requires counts { HasCounts message.now }
    ensures ok { OnOk result
        (out.new.items ≡ out.old.items ++ frame (back_kind message.now) (back_body message.now)) }
    ensures err { OnErr result (out.new.items ≡ out.old.items) }
{
    let start = out.len();
    whole_or_nothing(put_back(out, message), start, out)
}

#[tactic(auto, using(pqformat::proofs::Putting::in_place))]
fn put_back(out: &mut BytesMut, message: &Back) -> Result<(), AllocError>
    requires length { FitsLength (back_body message.now) }
    requires counts { HasCounts message.now }
    ensures { Puts result out.old.items out.new.items
        (frame (back_kind message.now) (back_body message.now)) }
{
    put_head(out, kind_of(message), body_len(message))?;
    put_body(out, message)
}

#[tactic(auto, using(pqformat::proofs::Putting::in_place))]
fn put_body(out: &mut BytesMut, message: &Back) -> Result<(), AllocError>
    requires { HasCounts message.now }
    ensures { Puts result out.old.items out.new.items (back_body message.now) }
{
    match message {
        Back::AuthenticationOk => put_int32(out, 0),
        Back::ParameterStatus(status) => put_parameter(out, status),
        Back::BackendKeyData(data) => put_backend_key(out, data),
        Back::ReadyForQuery(status) => put_byte(out, status.letter()),
        Back::CommandComplete(complete) => put_string(out, complete.tag.as_str()),
        Back::RowDescription(description) => put_counted(out, description.columns.as_slice()),
        Back::DataRow(row) => put_counted(out, row.values.as_slice()),
        Back::ErrorResponse(response) => put_closed(out, response.fields.as_slice()),
        Back::CopyBothResponse(response) => {
            put_byte(out, response.format)?;
            put_counted(out, response.formats.as_slice())
        }
        Back::CopyData(data) => put_copy_data(out, data),
        Back::CopyDone => Ok(()),
    }
}

fn kind_of(message: &Back) -> u8
    ensures { result ≡ back_kind message.now }
{
    match message {
        Back::AuthenticationOk => AUTHENTICATION,
        Back::ParameterStatus(_) => PARAMETER_STATUS,
        Back::BackendKeyData(_) => BACKEND_KEY_DATA,
        Back::ReadyForQuery(_) => READY_FOR_QUERY,
        Back::CommandComplete(_) => COMMAND_COMPLETE,
        Back::RowDescription(_) => ROW_DESCRIPTION,
        Back::DataRow(_) => DATA_ROW,
        Back::ErrorResponse(_) => ERROR_RESPONSE,
        Back::CopyBothResponse(_) => COPY_BOTH_RESPONSE,
        Back::CopyData(_) => COPY_DATA,
        Back::CopyDone => COPY_DONE,
    }
}

#[tactic(auto, using(crate::proofs::Lengths::body_lengths))]
fn body_len(message: &Back) -> usize
    requires { FitsLength (back_body message.now) }
    ensures { result ≡ length (back_body message.now) }
{
    match message {
        Back::AuthenticationOk => 4,
        Back::ParameterStatus(status) => parameter_len(status),
        Back::BackendKeyData(_) => 8,
        Back::ReadyForQuery(_) => 1,
        Back::CommandComplete(complete) => complete.tag.as_str().len() + 1,
        Back::RowDescription(description) => 2 + items_len(description.columns.as_slice()),
        Back::DataRow(row) => 2 + items_len(row.values.as_slice()),
        Back::ErrorResponse(response) => items_len(response.fields.as_slice()) + 1,
        Back::CopyBothResponse(response) => 3 + items_len(response.formats.as_slice()),
        Back::CopyData(data) => copy_data_len(data),
        Back::CopyDone => 0,
    }
}

/// The law of the grammar: of two frames whose spellings begin the same bytes, one is the other. So no spelling of a
/// frame is a proper beginning of another's, and frames that stand one after the other are read in one way.
pub fn no_back_begins_another()
    ensures { (a b x y : List ℕ) (f g : Back) → SpellsBack a f → SpellsBack b g → a ++ x ≡ b ++ y →
        (a ≡ b) × (f ≡ g) × (x ≡ y) }
{}
