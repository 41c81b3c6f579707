//! A file of passwords: a line for each user, `name:verifier`, or `name:verifier:p,q` for one that may follow these publications alone.

ghost use Rattle.std.specs.Prelude.{◌≡◌};
ghost use Rattle.connections.specs.declared.authentication.user_lines.UserLineFault.TheVariants as faults;

use crate::authentication::users::User;
use pqformat::{Items, Text};
use scram::{Verifier, VerifierFault};
use std::alloc::{AllocError, AllocFailed, Global};
use thiserror::Error;

/// Why a line is none of a user.
#[derive(Clone, Copy, Debug, PartialEq, Eq, Error)]
pub enum UserLineFault {
    #[error("it has no name with a colon after it")]
    Name,
    #[error("its user has a line already")]
    Twice,
    #[error("{0}")]
    Verifier(VerifierFault),
    #[error("it names no publication between its commas")]
    Publication,
    #[error("out of memory")]
    Memory,
}

impl From<AllocError> for UserLineFault {
    ghost from_gives = { λ _ e. e ≡ faults.Memory };

    fn from(_e: AllocError) -> UserLineFault {
        UserLineFault::Memory
    }
}

impl<T: Drop> From<AllocFailed<T>> for UserLineFault {
    ghost from_gives = { λ _ e. e ≡ faults.Memory };

    fn from(_e: AllocFailed<T>) -> UserLineFault {
        UserLineFault::Memory
    }
}

/// Which line is at fault, counted from 1.
#[derive(Clone, Copy, Debug, PartialEq, Eq)]
pub struct BadUserLine {
    pub number: usize,
    pub fault: UserLineFault,
}

/// The users of a file's text. Empty lines are passed over. A line without a name before a colon is `Name`, one of a user that
/// has a line already `Twice`, one without a verifier that is served `Verifier`, and one with an empty name between its commas
/// `Publication`; each is told with the line's number. Or `Memory`.
pub fn users_in(alloc: Global, text: &str) -> Result<Items<User>, BadUserLine> {
    let mut users = Vec::new(alloc);
    for (index, line) in text.lines().enumerate() {
        if let Err(fault) = add(alloc, &mut users, line) {
            return Err(BadUserLine {
                number: index.saturating_add(1),
                fault,
            });
        }
    }
    Ok(Items::new(users))
}

fn add(alloc: Global, users: &mut Vec<User>, line: &str) -> Result<(), UserLineFault> {
    if line.is_empty() {
        return Ok(());
    }
    let user = user_of(alloc, line)?;
    if is_named(users.as_slice(), user.name.as_str()) {
        return Err(UserLineFault::Twice);
    }
    users.push(user)?;
    Ok(())
}

fn is_named(users: &[User], name: &str) -> bool {
    for user in users {
        if user.name.as_str() == name {
            return true;
        }
    }
    false
}

fn user_of(alloc: Global, line: &str) -> Result<User, UserLineFault> {
    let Some((name, rest)) = line.split_once(':') else {
        return Err(UserLineFault::Name);
    };
    if name.is_empty() || name.contains('\0') {
        return Err(UserLineFault::Name);
    }
    let (verifier, publications) = parted(rest);
    Ok(User {
        name: Text::copy_of(alloc, name)?,
        verifier: verifier_of(alloc, verifier)?,
        publications: publications_of(alloc, publications)?,
    })
}

/// The verifier, which has two colons, and the publications, where a third one comes.
fn parted(rest: &str) -> (&str, Option<&str>) {
    let Some(publications) = rest.splitn(4, ':').nth(3) else {
        return (rest, None);
    };
    let verifier = rest.strip_suffix(publications).unwrap_or(rest);
    (
        verifier.strip_suffix(':').unwrap_or(verifier),
        Some(publications),
    )
}

fn publications_of(
    alloc: Global,
    text: Option<&str>,
) -> Result<Option<Items<Text>>, UserLineFault> {
    let Some(text) = text else {
        return Ok(None);
    };
    let mut names = Vec::new(alloc);
    for name in text.split(',') {
        if name.is_empty() {
            return Err(UserLineFault::Publication);
        }
        names.push(Text::copy_of(alloc, name)?)?;
    }
    Ok(Some(Items::new(names)))
}

fn verifier_of(alloc: Global, text: &str) -> Result<Verifier, UserLineFault> {
    match Verifier::of_text(alloc, text) {
        Ok(verifier) => Ok(verifier),
        Err(VerifierFault::Memory) => Err(UserLineFault::Memory),
        Err(fault) => Err(UserLineFault::Verifier(fault)),
    }
}
