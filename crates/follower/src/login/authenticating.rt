//! How a client proves its password to a server that asks for it, by SCRAM-SHA-256, and the server that it knows it too.

use crate::fault::{FollowFault, told};
use crate::login::login_fault::LoginFault;
use crate::login::request::RequestKind;
use crate::login::sasl_response::{put_initial, put_response};
use crate::receiving::incoming::Incoming;
use bytes::BytesMut;
use client::ClientFault;
use frames::Back;
use pqformat::Items;
use scram::{ClientAnswer, ClientExchange, MECHANISM, base64_of, prepared};
use std::alloc::Global;
use std::io::{Read, Write};
use std::random::RandomSource;
use std::sync::Wait;

/// How many random bytes a nonce is made of, as PostgreSQL's clients make theirs.
const NONCE_BYTES: usize = 18;

/// Answers what the server asks for until it takes the client: nothing, or a proof of the password (PostgreSQL 15, 55.3.1). Another
/// server than one that knows the password isn't gone on with. Whether it asks is the server's choice, as it is with PostgreSQL's
/// clients. `Login` (K9) where it asks for what isn't given, or proves nothing; `Server` (K4) where it refuses; `Client` (K1, K2)
/// where it says what belongs to no exchange.
pub(crate) fn authenticate<R: Wait + RandomSource, S: Read + Write>(
    rt: &R,
    alloc: Global,
    incoming: &mut Incoming,
    socket: &mut S,
    password: Option<&[u8]>,
) -> Result<(), FollowFault> {
    let (kind, more) = hear(rt, incoming, socket)?;
    match kind {
        RequestKind::Nothing => Ok(()),
        RequestKind::Sasl => {
            if !is_offered(more.as_slice()) {
                return Err(FollowFault::Login(LoginFault::Mechanism));
            }
            let password = prepared(alloc, given(password)?)?;
            prove(rt, alloc, incoming, socket, password.as_slice())
        }
        other => Err(unserved(other)),
    }
}

/// Goes through the exchange.
fn prove<R: Wait + RandomSource, S: Read + Write>(
    rt: &R,
    alloc: Global,
    incoming: &mut Incoming,
    socket: &mut S,
    password: &[u8],
) -> Result<(), FollowFault> {
    let answer = answered(rt, alloc, incoming, socket, password)?;
    say(alloc, socket, answer.said.as_slice())?;
    confirm(rt, incoming, socket, &answer)
}

/// The answer of the server's challenge.
fn answered<R: Wait + RandomSource, S: Read + Write>(
    rt: &R,
    alloc: Global,
    incoming: &mut Incoming,
    socket: &mut S,
    password: &[u8],
) -> Result<ClientAnswer, FollowFault> {
    let exchange = begun(rt, alloc)?;
    say_first(alloc, socket, &exchange)?;
    let challenge = expect(rt, incoming, socket, RequestKind::SaslContinue)?;
    Ok(exchange.answer(alloc, password, challenge.as_slice())?)
}

/// Chooses the mechanism, and says the first message.
fn say_first<S: Write>(
    alloc: Global,
    socket: &mut S,
    exchange: &ClientExchange,
) -> Result<(), FollowFault> {
    let first = exchange.first(alloc)?;
    let mut initial = BytesMut::new(alloc);
    put_initial(&mut initial, MECHANISM.as_bytes(), first.as_slice())?;
    say(alloc, socket, initial.as_slice())
}

/// Has the server prove that it knows the password, and then take the client.
fn confirm<R: Wait, S: Read>(
    rt: &R,
    incoming: &mut Incoming,
    socket: &mut S,
    answer: &ClientAnswer,
) -> Result<(), FollowFault> {
    let last = expect(rt, incoming, socket, RequestKind::SaslFinal)?;
    answer.confirm(last.as_slice())?;
    expect(rt, incoming, socket, RequestKind::Nothing)?;
    Ok(())
}

/// An exchange of a new nonce.
fn begun<R: RandomSource>(rt: &R, alloc: Global) -> Result<ClientExchange, FollowFault> {
    let mut drawn = [0; NONCE_BYTES];
    if rt.fill_bytes(&mut drawn).is_err() {
        return Err(FollowFault::Login(LoginFault::Nonce));
    }
    let nonce = base64_of(alloc, drawn.as_slice())?;
    let nobody = Items::new(Vec::new(alloc));
    Ok(ClientExchange::new(nobody, Items::new(nonce.into_bytes())))
}

/// What follows of the next request, which must be of this kind. What belongs to no exchange is K2.
fn expect<R: Wait, S: Read>(
    rt: &R,
    incoming: &mut Incoming,
    socket: &mut S,
    due: RequestKind,
) -> Result<Vec<u8>, FollowFault> {
    let (kind, more) = hear(rt, incoming, socket)?;
    if kind != due {
        return Err(FollowFault::Client(ClientFault::Order));
    }
    Ok(more)
}

/// The next request, or what the server refuses.
fn hear<R: Wait, S: Read>(
    rt: &R,
    incoming: &mut Incoming,
    socket: &mut S,
) -> Result<(RequestKind, Vec<u8>), FollowFault> {
    match incoming.next_request(rt, socket)? {
        Some(request) => Ok(request),
        None => refused(rt, incoming, socket),
    }
}

/// What a server says that asks for nothing: why it refuses. Anything else is K2.
fn refused<R: Wait, S: Read, T>(
    rt: &R,
    incoming: &mut Incoming,
    socket: &mut S,
) -> Result<T, FollowFault> {
    let (frame, length) = incoming.next(rt, socket)?;
    incoming.pass(length);
    match frame {
        Back::ErrorResponse(error) => Err(told(error)),
        other => {
            drop(other);
            Err(FollowFault::Client(ClientFault::Order))
        }
    }
}

/// Sends a body.
fn say<S: Write>(alloc: Global, socket: &mut S, body: &[u8]) -> Result<(), FollowFault> {
    let mut bytes = BytesMut::new(alloc);
    put_response(&mut bytes, body)?;
    socket
        .write_all(bytes.as_slice())
        .map_err(FollowFault::Connection)
}

/// Whether the mechanism is one of those that are named, each with a zero byte after it.
fn is_offered(mechanisms: &[u8]) -> bool {
    let wanted = MECHANISM.as_bytes();
    mechanisms.split(|b| *b == 0).any(|name| name == wanted)
}

/// The password that was given. An empty one is none, as it is to PostgreSQL's clients.
fn given(password: Option<&[u8]>) -> Result<&[u8], FollowFault> {
    match password {
        Some(password) if !password.is_empty() => Ok(password),
        _ => Err(FollowFault::Login(LoginFault::NoPassword)),
    }
}

/// Why what is asked for isn't given.
fn unserved(kind: RequestKind) -> FollowFault {
    match kind {
        RequestKind::Cleartext => FollowFault::Login(LoginFault::Cleartext),
        RequestKind::Md5 => FollowFault::Login(LoginFault::Md5),
        RequestKind::Other => FollowFault::Login(LoginFault::Other),
        _ => FollowFault::Client(ClientFault::Order),
    }
}
