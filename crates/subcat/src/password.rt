//! Who connects, and which password is proved: that of the environment, or one of a file.

use crate::password_file::{PassfileHost, password_at};
use std::alloc::{AllocError, Global};
use std::env::{VarError, var};
use std::fs::{File, Metadata, metadata};
use std::io;
use std::io::Read;
use std::os::unix::fs::MetadataExt;
use thiserror::Error;

/// Variables of the environment, as for PostgreSQL's clients (PostgreSQL 15, 34.15): a user, a password, a file of passwords.
const USER: &str = "PGUSER";

const PASSWORD: &str = "PGPASSWORD";

const PASSWORD_FILE: &str = "PGPASSFILE";

/// The user where none is told.
const USUAL_USER: &str = "subcat";

/// The folder of who runs it, and the file of passwords there (PostgreSQL 15, 34.16).
const HOME: &str = "HOME";

const USUAL_FILE: &str = "/.pgpass";

/// The rights of others than the owner of a file.
const RIGHTS_OF_OTHERS: u32 = 0o077;

/// Why no password was found where one was to be.
#[derive(Debug, Drop, Error)]
pub enum PasswordFault {
    #[error("{0} is no text")]
    Variable(&'static str),
    #[error("the password file cannot be read: {0}")]
    Unread(io::Error),
    #[error("the password file is no plain file")]
    NotPlain,
    #[error("the password file has group or world access: permissions should be u=rw (0600) or less")]
    Open,
    #[error("out of memory")]
    Memory(#[from(alloc)] AllocError),
}

impl PasswordFault {
    /// Whether what was given is refused.
    pub fn is_bad_input(&self) -> bool {
        match self {
            PasswordFault::Variable(_) | PasswordFault::NotPlain | PasswordFault::Open => true,
            PasswordFault::Unread(_) | PasswordFault::Memory(_) => false,
        }
    }
}

/// The user that is told, or else that of the environment, or else the usual one. `Variable` where the environment's is no text, or
/// `Memory`.
pub fn user_of(rt: &HostRuntime, told: Option<&str>) -> Result<String, PasswordFault> {
    if let Some(user) = told {
        return Ok(user.to_string(rt.alloc())?);
    }
    match variable(rt, USER)? {
        Some(user) => Ok(user),
        None => Ok(USUAL_USER.to_string(rt.alloc())?),
    }
}

/// The password of the environment, or else the first one that fits of the file at this path, or, where none is told, of the usual
/// one. `Variable` where a variable is no text. Of a file that is told, `Unread` where it can't be read, `NotPlain` where it is no
/// plain file, `Open` where others have rights to it, as PostgreSQL's clients refuse it (PostgreSQL 15, 34.16). Or `Memory`.
pub fn password_of(
    rt: &HostRuntime,
    told: Option<&str>,
    place: &PassfileHost<'_>,
) -> Result<Option<Vec<u8>>, PasswordFault> {
    if let Some(password) = variable(rt, PASSWORD)? {
        return Ok(Some(password.into_bytes()));
    }
    match told {
        Some(path) => in_file(rt, rt.alloc(), path, place),
        None => in_usual_file(rt, place),
    }
}

/// A variable of the environment. An empty one is none.
fn variable(rt: &HostRuntime, name: &'static str) -> Result<Option<String>, PasswordFault> {
    match var(rt, name) {
        Ok(text) if !text.as_str().is_empty() => Ok(Some(text)),
        Ok(_) | Err(VarError::NotPresent) => Ok(None),
        Err(VarError::NotUnicode) => Err(PasswordFault::Variable(name)),
        Err(VarError::OutOfMemory) => Err(PasswordFault::Memory(AllocError)),
    }
}

/// As PostgreSQL's clients have it (PostgreSQL 15, 34.16), a usual file that can't be read holds nothing, and one that may not be
/// used is told and left alone.
fn in_usual_file(
    rt: &HostRuntime,
    place: &PassfileHost<'_>,
) -> Result<Option<Vec<u8>>, PasswordFault> {
    let Some(path) = usual_path(rt)? else {
        return Ok(None);
    };
    match in_file(rt, rt.alloc(), path.as_str(), place) {
        Err(PasswordFault::Unread(_)) => Ok(None),
        Err(fault) if fault.is_bad_input() => {
            let _ = eprintln!(rt; "subcat: {fault}; {path} is not used");
            Ok(None)
        }
        found => found,
    }
}

fn usual_path(rt: &HostRuntime) -> Result<Option<String>, PasswordFault> {
    if let Some(path) = variable(rt, PASSWORD_FILE)? {
        return Ok(Some(path));
    }
    let Some(mut path) = variable(rt, HOME)? else {
        return Ok(None);
    };
    path.push_str(USUAL_FILE)?;
    Ok(Some(path))
}

fn in_file(
    rt: &HostRuntime,
    alloc: Global,
    path: &str,
    place: &PassfileHost<'_>,
) -> Result<Option<Vec<u8>>, PasswordFault> {
    // It is judged before it is opened, since that may wait where it is no plain file.
    judge(&metadata(rt, path).map_err(PasswordFault::Unread)?)?;
    let mut file: File = File::open(rt, path).map_err(PasswordFault::Unread)?;
    let mut text = Vec::new(alloc);
    file.read_to_end(&mut text).map_err(PasswordFault::Unread)?;
    Ok(password_at(alloc, text.as_slice(), place)?)
}

/// Refused where others than its owner may do anything with it.
fn judge(about: &Metadata) -> Result<(), PasswordFault> {
    if !about.is_file() {
        return Err(PasswordFault::NotPlain);
    }
    if about.mode() & RIGHTS_OF_OTHERS != 0 {
        return Err(PasswordFault::Open);
    }
    Ok(())
}
