//! `--password-of NAME`: what a server keeps of a password.

use scram::{SALT_BYTES, line_of_user, prepared};
use std::alloc::{AllocError, Global};
use std::io;
use std::io::Stdin;
use std::random::RandomSource;
use thiserror::Error;

/// Why no line of a user is printed.
#[derive(Debug, Drop, Error)]
pub enum PasswordFault {
    #[error("NAME of --password-of is not empty, and has no colon, line end or zero byte")]
    Name,
    #[error("the password is empty")]
    Empty,
    #[error("the password cannot be read: {0}")]
    Input(io::Error),
    #[error("no salt can be drawn: {0}")]
    Salt(io::Error),
    #[error("standard output cannot be used: {0}")]
    Output(io::Error),
    #[error("out of memory")]
    Memory(#[from] AllocError),
}

impl PasswordFault {
    /// Whether the name or the password is refused.
    pub fn is_bad_input(&self) -> bool {
        matches!(self, PasswordFault::Name | PasswordFault::Empty)
    }
}

/// Prints the line of this user, whose password is the first line of the standard input. Refused in this order: `Name` where no
/// line can be of that name, `Input` where nothing can be read, `Empty` where the password is, `Salt` where no random bytes are to
/// be had, `Output`. Or `Memory`.
pub fn tell_password(rt: &HostRuntime, name: &str) -> Result<(), PasswordFault> {
    if !is_name(name) {
        return Err(PasswordFault::Name);
    }
    let mut input = String::new(rt.alloc());
    rt.read_line(&mut input).map_err(PasswordFault::Input)?;
    let password = password_in(input.as_str())?;
    let mut salt = [0; SALT_BYTES];
    rt.fill_bytes(&mut salt).map_err(PasswordFault::Salt)?;
    let prepared = prepared(rt.alloc(), password.as_bytes())?;
    let line = line_of_user(rt.alloc(), name, prepared.as_slice(), salt)?;
    println!(rt; "{line}").map_err(PasswordFault::Output)
}

fn is_name(name: &str) -> bool {
    !name.is_empty() && !name.contains(':') && !name.contains('\n') && !name.contains('\0')
}

/// The first line.
fn password_in(input: &str) -> Result<&str, PasswordFault> {
    let password = input.strip_suffix('\n').unwrap_or(input);
    if password.is_empty() {
        return Err(PasswordFault::Empty);
    }
    Ok(password)
}
