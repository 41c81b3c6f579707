//! `--passwords FILE`: who may connect.

use connections::{BadUserLine, SECRET_BYTES, User, UserLineFault, Users, users_in};
use pqformat::Items;
use std::alloc::{AllocError, Global};
use std::fs::{File, Files};
use std::random::RandomSource;
use std::{fmt, io};
use thiserror::Error;

/// Why a file of passwords gave no users.
#[derive(Clone, Copy, Debug, PartialEq, Eq)]
pub enum UserFault {
    Read(io::ErrorKind),
    Line(BadUserLine),
    Memory,
}

impl UserFault {
    /// Whether the file is at fault: one of its lines, or that it is no text.
    fn is_bad_file(self) -> bool {
        match self {
            UserFault::Read(kind) => kind == io::ErrorKind::InvalidData,
            UserFault::Line(_) => true,
            UserFault::Memory => false,
        }
    }
}

impl fmt::Display for UserFault {
    fn fmt<W: fmt::Write>(&self, f: &mut fmt::Formatter<W>) -> fmt::Result {
        match self {
            UserFault::Read(kind) => write!(f, "the file of passwords cannot be read: {kind}"),
            UserFault::Line(BadUserLine { number, fault }) => {
                write!(
                    f,
                    "line {number} of the file of passwords is no user's: {fault}"
                )
            }
            UserFault::Memory => f.write_str("out of memory"),
        }
    }
}

/// Why nobody may connect yet.
#[derive(Debug, Drop, Error)]
pub enum UserFileFault {
    #[error("{0}")]
    Users(UserFault),
    #[error("no secret can be drawn: {0}")]
    Secret(io::Error),
}

impl UserFileFault {
    /// Whether the file is refused.
    pub fn is_bad_file(&self) -> bool {
        match self {
            UserFileFault::Users(fault) => fault.is_bad_file(),
            UserFileFault::Secret(_) => false,
        }
    }
}

/// The file of those that may connect, which is read again where a line asks for that.
#[derive(Drop)]
pub struct UserFile {
    host: HostRuntime,
    path: String,
}

impl UserFile {
    /// The file at this path, where one is told. `AllocError` where memory for its path is refused.
    pub fn asked(host: &HostRuntime, path: Option<&str>) -> Result<Option<Self>, AllocError> {
        let Some(path) = path else {
            return Ok(None);
        };
        Ok(Some(UserFile {
            host: *host,
            path: String::from_str(host.alloc(), path)?,
        }))
    }

    /// Those that it names now. `Read` where it can't be read or is no text, `Line` at the first line that is no user's, or
    /// `Memory`.
    pub fn users(&self, alloc: Global) -> Result<Items<User>, UserFault> {
        users_at(&self.host, alloc, self.path.as_str())
    }
}

/// The users of the file at this path.
fn users_at<R: Files>(rt: &R, alloc: Global, path: &str) -> Result<Items<User>, UserFault> {
    let text = text_at(rt, alloc, path)?;
    match users_in(alloc, text.as_str()) {
        Ok(users) => Ok(users),
        Err(
            BadUserLine {
                fault: UserLineFault::Memory,
                ..
            },
        ) => Err(UserFault::Memory),
        Err(bad) => Err(UserFault::Line(bad)),
    }
}

fn text_at<R: Files>(rt: &R, alloc: Global, path: &str) -> Result<String, UserFault> {
    let read = match File::open(rt, path) {
        Ok(file) => io::read_to_string(alloc, file),
        Err(error) => Err(error),
    };
    match read {
        Ok(text) => Ok(text),
        Err(error) => Err(UserFault::Read(error.kind())),
    }
}

/// Those that may connect, where passwords are asked. `Secret` where no random bytes are to be had, then `Users` as of
/// `UserFile::users`.
pub fn asked_users(rt: &HostRuntime, path: Option<&str>) -> Result<Option<Users>, UserFileFault> {
    let Some(path) = path else {
        return Ok(None);
    };
    let mut secret = [0; SECRET_BYTES];
    rt.fill_bytes(&mut secret).map_err(UserFileFault::Secret)?;
    match users_at(rt, rt.alloc(), path) {
        Ok(users) => Ok(Some(Users { users, secret })),
        Err(fault) => Err(UserFileFault::Users(fault)),
    }
}
