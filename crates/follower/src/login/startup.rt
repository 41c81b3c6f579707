//! What a client says first: who it is, and that it asks for replication.

ghost use Rattle.std.specs.Prelude.{◌≡◌, ◌++◌, IfOk, OnOk};
ghost use Rattle.frames.specs.Parameter.{parameter};
ghost use Rattle.frames.specs.Startup.{startup_body};
ghost use Rattle.follower.specs.Requests.{session_of, session_startup};

use bytes::BytesMut;
use frames::{PROTOCOL_VERSION, put_byte, put_bytes, put_int32, put_string};
use std::alloc::{AllocError, Global};

/// The most bytes of a user's name that are sent. PostgreSQL cuts longer ones than 63 (PostgreSQL 15, 4.1.1), and reads no startup
/// of more than 10,000.
const MOST_NAME_BYTES: usize = 9_000;

/// The most bytes of all that a startup says.
const MOST_BODY_BYTES: usize = 65_535;

/// Whether a session can be of a user of this name.
pub(crate) fn is_name(user: &str) -> bool {
    user.len() <= MOST_NAME_BYTES && !user.is_empty() && !user.contains('\0')
}

/// The startup of a user's session for logical replication (PostgreSQL 15, 55.4). `AllocError` where memory is refused; so is a
/// longer startup than is sent, which no name makes (`is_name`).
pub(crate) fn put_startup(alloc: Global, out: &mut BytesMut, user: &str) -> Result<(), AllocError>
    ensures { OnOk result (out.new.items ≡ out.old.items ++ session_startup user.now) }
{
    let body = session_body(alloc, user)?;
    if MOST_BODY_BYTES < body.len() {
        return Err(AllocError);
    }
    put_int32(out, 8 + body.len() as u32)?;
    put_int32(out, PROTOCOL_VERSION)?;
    put_bytes(out, body.as_slice())
}

fn session_body(alloc: Global, user: &str) -> Result<BytesMut, AllocError>
    ensures { IfOk result (λ body. body.items ≡ startup_body (session_of user.now)) }
{
    let mut body = BytesMut::new(alloc);
    put_parameter(&mut body, "user", user)?;
    put_parameter(&mut body, "replication", "database")?;
    put_byte(&mut body, 0)?;
    Ok(body)
}

fn put_parameter(out: &mut BytesMut, name: &str, value: &str) -> Result<(), AllocError>
    ensures { OnOk result (out.new.items
        ≡ out.old.items ++ parameter (record { name = name.now; value = value.now })) }
{
    put_string(out, name)?;
    put_string(out, value)
}
