//! The frames that a client sends: the enum over them, its reader and its writer.

ghost use Rattle.std.specs.Prelude.{◌≡◌, ◌<◌, ◌≤◌, ◌++◌, List, ℕ, length, take, true, Ok, Err, Some, None, IsOkAnd, IfOk, IfErr, IfSome, OnOk, OnErr};
ghost use Rattle.frames.specs.Frame.{FitsLength, frame, Gives, IsKept};
ghost use Rattle.pqformat.specs.Putting.{Puts};
ghost use Rattle.frames.specs.Front.{front_kind, front_body, front_limit, front_needs_memory, front_at, framed_front, SpellsFront, IsShortFront, IsFrontFault};

use crate::copy_data::{COPY_DATA, CopyData, copy_data_len, copy_data_of, put_copy_data};
use crate::copy_done::COPY_DONE;
use crate::fault::FrameFault;
use crate::frontend::copy_fail::{COPY_FAIL, CopyFail};
use crate::frontend::query::{QUERY, QUERY_LIMIT, Query};
use crate::frontend::terminate::TERMINATE;
use crate::parts::body::{nothing_of, only_text};
use crate::parts::frame::{FRAME_LIMIT, body_of, put_head};
use bytes::BytesMut;
use pqformat::{Cursor, put_string, whole_or_nothing};
use std::alloc::{AllocError, Global};

/// A frame that a client sends (PostgreSQL 15, 55.7).
///
/// `read_front` on the bytes that have come: `None` is to wait for more, `Some` is a frame and the count of bytes to drop
/// from the front, and a fault is the connection's end. `write_front` is its converse.
#[derive(Debug, Drop)]
pub enum Front {
    Query(Query),
    Terminate,
    CopyData(CopyData),
    CopyDone,
    CopyFail(CopyFail),
}

/// The frame at the front of the bytes, and how many of them it takes; None while it isn't there whole.
///
/// A type byte that no frame has is `UnknownType` (F3) at once; a length under 4 is `BadLength` (F1), and one over the limit of
/// its frames `TooLong` (F6), as soon as it is there. Once the frame is there whole, a body that isn't one of its frame is
/// `BadBody` (F4), a text that isn't UTF-8 `NotUtf8` (F5). `Memory` (F7) is answered only where a frame stands that is right
/// and needs memory.
pub fn read_front(alloc: Global, bytes: &[u8]) -> Result<Option<(Front, usize)>, FrameFault>
    // What is read stands at the front, spelled so.
    ensures found { IfOk result
        (λ o. IfSome o
        (λ x. (x.1 ≤ length bytes.now) × SpellsFront (take x.1 bytes.now) x.0
        × IsShortFront x.0)) }
    // What is spelled at the front is read, whatever follows it, unless memory runs out.
    ensures only { (text rest : List ℕ) (f : Front) → SpellsFront text f → IsShortFront f →
        bytes.now ≡ text ++ rest → Gives result (Ok (Some (f, length text))) }
    // A front of a spelling that isn't the whole is waited on.
    ensures waits { (text more : List ℕ) (f : Front) → SpellsFront text f → IsShortFront f →
        text ≡ bytes.now ++ more → length bytes.now < length text → result ≡ Ok None }
    // A fault stands in the bytes.
    ensures fault { IfErr result (λ e. IsFrontFault e bytes.now) }
    // Which fault it is, in the order in which the bytes are judged.
    ensures exact { Gives result (framed_front bytes.now) }
    // Want of memory is answered only where nothing else is, and a frame stands that needs it.
    ensures memory { result ≡ Err FrameFault.Memory →
        IsKept front_needs_memory (framed_front bytes.now) }
{
    front_of(alloc, bytes)
}

fn front_of(alloc: Global, bytes: &[u8]) -> Result<Option<(Front, usize)>, FrameFault>
    ensures exact { Gives result (framed_front bytes.now) }
    ensures memory { result ≡ Err FrameFault.Memory →
        IsKept front_needs_memory (framed_front bytes.now) }
{
    let mut cursor = Cursor::new(bytes);
    let Some(kind) = cursor.u8() else {
        return Ok(None);
    };
    let Some((body, size)) = body_of(&mut cursor, limit_of(kind))? else {
        return Ok(None);
    };
    let frame = whole_of(alloc, kind, body)?;
    Ok(Some((frame, size)))
}

fn limit_of(kind: u8) -> Option<u32>
    ensures { result ≡ front_limit kind }
{
    match kind {
        QUERY => Some(QUERY_LIMIT),
        TERMINATE | COPY_DATA | COPY_DONE | COPY_FAIL => Some(FRAME_LIMIT),
        _ => None,
    }
}

fn whole_of(alloc: Global, kind: u8, body: &[u8]) -> Result<Front, FrameFault>
    ensures exact { Gives result (front_at kind body.now) }
    ensures memory { result ≡ Err FrameFault.Memory →
        IsOkAnd (front_at kind body.now) (λ f. front_needs_memory f ≡ true) }
{
    match kind {
        QUERY => {
            let text = only_text(alloc, body)?;
            Ok(Front::Query(Query { text }))
        }
        TERMINATE => {
            nothing_of(body)?;
            Ok(Front::Terminate)
        }
        COPY_DATA => Ok(Front::CopyData(copy_data_of(alloc, body)?)),
        COPY_DONE => {
            nothing_of(body)?;
            Ok(Front::CopyDone)
        }
        COPY_FAIL => {
            let reason = only_text(alloc, body)?;
            Ok(Front::CopyFail(CopyFail { reason }))
        }
        _ => Err(FrameFault::UnknownType),
    }
}

/// Adds the frame at the end of `out`. `AllocError` where memory is refused; nothing is added then.
pub fn write_front(message: &Front, out: &mut BytesMut) -> Result<(), AllocError>
    requires { FitsLength (front_body message.now) }
    ensures ok { OnOk result
        (out.new.items ≡ out.old.items ++ frame (front_kind message.now) (front_body message.now)) }
    ensures err { OnErr result (out.new.items ≡ out.old.items) }
{
    let start = out.len();
    whole_or_nothing(put_front(out, message), start, out)
}

#[tactic(auto, using(pqformat::proofs::Putting::in_place))]
fn put_front(out: &mut BytesMut, message: &Front) -> Result<(), AllocError>
    requires { FitsLength (front_body message.now) }
    ensures { Puts result out.old.items out.new.items
        (frame (front_kind message.now) (front_body message.now)) }
{
    put_head(out, kind_of(message), body_len(message))?;
    match message {
        Front::Query(query) => put_string(out, query.text.as_str()),
        Front::CopyData(data) => put_copy_data(out, data),
        Front::CopyFail(fail) => put_string(out, fail.reason.as_str()),
        Front::Terminate | Front::CopyDone => Ok(()),
    }
}

fn kind_of(message: &Front) -> u8
    ensures { result ≡ front_kind message.now }
{
    match message {
        Front::Query(_) => QUERY,
        Front::Terminate => TERMINATE,
        Front::CopyData(_) => COPY_DATA,
        Front::CopyDone => COPY_DONE,
        Front::CopyFail(_) => COPY_FAIL,
    }
}

fn body_len(message: &Front) -> usize
    ensures { result ≡ length (front_body message.now) }
{
    match message {
        Front::Query(query) => query.text.as_str().len() + 1,
        Front::CopyData(data) => copy_data_len(data),
        Front::CopyFail(fail) => fail.reason.as_str().len() + 1,
        Front::Terminate | Front::CopyDone => 0,
    }
}

/// The law of the grammar: of two frames whose spellings begin the same bytes, one is the other. So no spelling of a
/// frame is a proper beginning of another's, and frames that stand one after the other are read in one way.
pub fn no_front_begins_another()
    ensures { (a b x y : List ℕ) (f g : Front) → SpellsFront a f → SpellsFront b g →
        a ++ x ≡ b ++ y → (a ≡ b) × (f ≡ g) × (x ≡ y) }
{}
