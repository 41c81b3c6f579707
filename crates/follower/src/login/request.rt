//! What a server asks of one who connects: its authentication messages.

ghost use Rattle.std.specs.Prelude.{◌≡◌, option_map};
ghost use Rattle.frames.specs.Raw.{lent};
ghost use Rattle.follower.specs.Requests.{framed_request, kind_of, request_of};

use frames::{AUTHENTICATION, Cursor, FrameFault, body_alone};

/// The greatest length field of one that is read, as PostgreSQL's clients read none that is longer.
pub(crate) const MOST_REQUEST_BYTES: u32 = 2_000;

/// What an authentication message asks (PostgreSQL 15, 55.7).
///
/// ```text
/// Byte1('R') | Int32 length, itself counted | Int32 what is asked | Byten more of it
/// ```
#[derive(Clone, Copy, PartialEq, Eq)]
pub(crate) enum RequestKind {
    /// AuthenticationOk: nothing.
    Nothing,
    /// AuthenticationCleartextPassword.
    Cleartext,
    /// AuthenticationMD5Password.
    Md5,
    /// AuthenticationSASL: a proof by one of the mechanisms that follow.
    Sasl,
    /// AuthenticationSASLContinue: the answer of what follows.
    SaslContinue,
    /// AuthenticationSASLFinal: that what follows is right.
    SaslFinal,
    /// Something else, as Kerberos.
    Other,
}

/// What is asked, and what follows of it.
#[derive(Clone, Copy)]
pub(crate) struct Request<'a> {
    pub(crate) kind: RequestKind,
    pub(crate) more: &'a [u8],
}

/// The body of the one at the front, and how many bytes the whole takes; None while it isn't there whole. Faults as of
/// `frames::body_alone`, where the front is none or a longer one.
pub(crate) fn framed_request(bytes: &[u8]) -> Result<Option<(&[u8], usize)>, FrameFault>
    ensures { lent result ≡ framed_request bytes.now }
{
    body_alone(bytes, AUTHENTICATION, MOST_REQUEST_BYTES)
}

/// What this body asks; None where it is too short to ask anything.
pub(crate) fn request_of(body: &[u8]) -> Option<Request<'_>>
    ensures { option_map (λ r. (r.kind, r.more.now)) result ≡ request_of body.now }
{
    let mut cursor = Cursor::new(body);
    match cursor.u32() {
        Some(number) => Some(Request {
            kind: kind_of(number),
            more: cursor.rest(),
        }),
        None => None,
    }
}

fn kind_of(number: u32) -> RequestKind
    ensures { result ≡ kind_of number }
{
    match number {
        0 => RequestKind::Nothing,
        3 => RequestKind::Cleartext,
        5 => RequestKind::Md5,
        10 => RequestKind::Sasl,
        11 => RequestKind::SaslContinue,
        12 => RequestKind::SaslFinal,
        _ => RequestKind::Other,
    }
}
