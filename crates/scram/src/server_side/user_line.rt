//! A user in a file of passwords: `name:verifier`.

ghost use Rattle.std.specs.Prelude.{◌≡◌, IfOk, string_bytes};
ghost use Rattle.scram.specs.UserLines.{IsLineOf};

use crate::server_side::verifier::{SALT_BYTES, Verifier};
use std::alloc::{AllocError, Global};

/// The line of a user with this password, as `Verifier::of_password` takes it. The name is to have no colon and no line end.
/// `AllocError` where memory is refused.
pub fn line_of_user(
    alloc: Global,
    name: &str,
    password: &[u8],
    salt: [u8; SALT_BYTES],
) -> Result<String, AllocError>
    ensures { IfOk result (λ line. IsLineOf name.now password.now salt (string_bytes line)) }
{
    let verifier = Verifier::of_password(alloc, password, salt)?;
    let mut line = String::from_str(alloc, name)?;
    line.push_str(":")?;
    line.push_str(verifier.text(alloc)?.as_str())?;
    Ok(line)
}
