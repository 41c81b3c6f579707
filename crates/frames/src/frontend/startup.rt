//! Startups: what a client sends before any frame, and their reader.

ghost use Rattle.std.specs.Prelude.{◌≡◌, ◌≢◌, ◌<◌, ◌≤◌, ◌++◌, List, ℕ, length, take, Result, true, Ok, Err, Some, None, IsOkAnd, IfOk, IfErr, IfSome};
ghost use Rattle.frames.specs.Frame.{Gives, IsKept};
ghost use Rattle.frames.specs.Raw.{lent_startup};
ghost use Rattle.frames.specs.Startup.{SpellsStartup, IsStartupFault, startup_limit, startup_needs_memory, startup_at, lengthy, raw_startup, framed_startup};

use crate::backend::backend_key_data::backend_key_of;
use crate::fault::FrameFault;
use crate::frontend::parameter::Parameter;
use crate::parts::body::nothing_of;
use crate::parts::list::listed;
use pqformat::{Cursor, Items};
use std::alloc::Global;

/// The greatest length of a startup.
pub const STARTUP_LIMIT: u32 = 10_000;

/// The protocol version 3.0, as the number of a session's startup.
pub const PROTOCOL_VERSION: u32 = 196_608;

pub const CANCEL_REQUEST: u32 = 80_877_102;

pub const SSL_REQUEST: u32 = 80_877_103;

pub const GSS_REQUEST: u32 = 80_877_104;

/// What a client sends first (PostgreSQL 15, 55.7): StartupMessage, SSLRequest, GSSENCRequest or CancelRequest.
///
/// ```text
/// Int32 length, itself counted | Int32 196608   | for each parameter: String name | String value; Byte1(0)
/// Int32 8                      | Int32 80877103
/// Int32 8                      | Int32 80877104
/// Int32 16                     | Int32 80877102 | Int32 process | Int32 key
/// ```
///
/// After `Ssl` and `Gss` have been answered, another startup follows.
#[derive(Debug, Drop)]
pub enum Startup {
    Session(Items<Parameter>),
    Ssl,
    Gss,
    Cancel(u32, u32),
}

/// The startup at the front of the bytes, and how many of them it takes; None while it isn't there whole.
///
/// The length is judged first, as soon as it is there: under 8 is `BadLength` (F1), over the limit `TooLong` (F6). Then the
/// number: an unknown one is `BadVersion` (F2), and a request of another length than its own `BadLength`. Once it is there
/// whole, parameters that don't end or that something follows are `BadBody` (F4), a text that isn't UTF-8 `NotUtf8` (F5).
/// `Memory` (F7) is answered only where a session's startup stands that is right.
pub fn read_startup(alloc: Global, bytes: &[u8]) -> Result<Option<(Startup, usize)>, FrameFault>
    // What is read stands at the front, spelled so.
    ensures found { IfOk result
        (λ o. IfSome o (λ x. (x.1 ≤ length bytes.now) × SpellsStartup (take x.1 bytes.now) x.0)) }
    // What is spelled at the front is read, whatever follows it, unless memory runs out.
    ensures only { (text rest : List ℕ) (f : Startup) → SpellsStartup text f →
        bytes.now ≡ text ++ rest → Gives result (Ok (Some (f, length text))) }
    // A front of a spelling that isn't the whole is waited on.
    ensures waits { (text more : List ℕ) (f : Startup) → SpellsStartup text f →
        text ≡ bytes.now ++ more → length bytes.now < length text → result ≡ Ok None }
    // A fault stands in the bytes.
    ensures fault { IfErr result (λ e. IsStartupFault e bytes.now) }
    // Which fault it is, in the order in which the bytes are judged.
    ensures exact { Gives result (framed_startup bytes.now) }
    // Want of memory is answered only where nothing else is, and a startup stands that needs it.
    ensures memory { result ≡ Err FrameFault.Memory →
        IsKept startup_needs_memory (framed_startup bytes.now) }
{
    startup_of(alloc, bytes)
}

fn startup_of(alloc: Global, bytes: &[u8]) -> Result<Option<(Startup, usize)>, FrameFault>
    ensures exact { Gives result (framed_startup bytes.now) }
    ensures memory { result ≡ Err FrameFault.Memory →
        IsKept startup_needs_memory (framed_startup bytes.now) }
{
    let mut cursor = Cursor::new(bytes);
    let Some(((number, body), size)) = sized_of(&mut cursor)? else {
        return Ok(None);
    };
    let startup = whole_of(alloc, number, body)?;
    Ok(Some((startup, size)))
}

/// The number, the body and the length, once the whole startup is there.
fn sized_of<'a>(cursor: &mut Cursor<'a>) -> Result<Option<((u32, &'a [u8]), usize)>, FrameFault>
    ensures exact { Gives (lent_startup result) (raw_startup cursor.old) }
    ensures steady { result ≢ Err FrameFault.Memory }
{
    let Some(length) = cursor.u32() else {
        return Ok(None);
    };
    if length < 8 {
        return Err(FrameFault::BadLength);
    }
    if STARTUP_LIMIT < length {
        return Err(FrameFault::TooLong);
    }
    let Some(number) = cursor.u32() else {
        return Ok(None);
    };
    check_length(number, length)?;
    let Some(body) = cursor.take(length as usize - 8) else {
        return Ok(None);
    };
    Ok(Some(((number, body), length as usize)))
}

fn check_length(number: u32, length: u32) -> Result<(), FrameFault>
    ensures exact { result ≡ lengthy number length }
    ensures steady { result ≢ Err FrameFault.Memory }
{
    let most = limit_of(number).ok_or(FrameFault::BadVersion)?;
    if number == PROTOCOL_VERSION || length == most {
        Ok(())
    } else {
        Err(FrameFault::BadLength)
    }
}

fn limit_of(number: u32) -> Option<u32>
    ensures { result ≡ startup_limit number }
{
    match number {
        PROTOCOL_VERSION => Some(STARTUP_LIMIT),
        SSL_REQUEST | GSS_REQUEST => Some(8),
        CANCEL_REQUEST => Some(16),
        _ => None,
    }
}

fn whole_of(alloc: Global, number: u32, body: &[u8]) -> Result<Startup, FrameFault>
    ensures exact { Gives result (startup_at number body.now) }
    ensures memory { result ≡ Err FrameFault.Memory →
        IsOkAnd (startup_at number body.now) (λ f. startup_needs_memory f ≡ true) }
{
    match number {
        PROTOCOL_VERSION => Ok(Startup::Session(listed(alloc, body)?)),
        SSL_REQUEST => {
            nothing_of(body)?;
            Ok(Startup::Ssl)
        }
        GSS_REQUEST => {
            nothing_of(body)?;
            Ok(Startup::Gss)
        }
        CANCEL_REQUEST => {
            let (process, key) = backend_key_of(body)?;
            Ok(Startup::Cancel(process, key))
        }
        _ => Err(FrameFault::BadVersion),
    }
}

/// The law of the grammar: of two startups whose spellings begin the same bytes, one is the other.
pub fn no_startup_begins_another()
    ensures { (a b x y : List ℕ) (f g : Startup) → SpellsStartup a f → SpellsStartup b g →
        a ++ x ≡ b ++ y → (a ≡ b) × (f ≡ g) × (x ≡ y) }
{}
