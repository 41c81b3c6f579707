//! The users of a file of passwords.

ghost use Rattle.std.specs.Prelude.{◌≡◌, IfOk, option_map};
ghost use Rattle.connections.specs.Accounts.{IsAccountOf, user_of};
ghost use Rattle.connections.specs.Rights.{follows_all, has_name, may_follow, may_follow_all};

use pqformat::{Items, Text};
use scram::{Account, Verifier};
use std::alloc::{AllocError, Global};

/// How many bytes nobody else knows.
pub const SECRET_BYTES: usize = 32;

/// A user that may connect.
#[derive(Drop)]
pub struct User {
    pub name: Text,
    pub verifier: Verifier,
    /// The publications that it may follow: all of them, unless they are named.
    pub publications: Option<Items<Text>>,
}

impl User {
    /// Whether it may follow the publication of this name.
    pub fn may_follow(&self, name: &str) -> bool
        ensures { result ≡ may_follow self.now name.now }
    {
        match &self.publications {
            Some(publications) => has_name(publications.as_slice(), name),
            None => true,
        }
    }
}

fn has_name(names: &[Text], name: &str) -> bool
    ensures { result ≡ has_name name.now names.now }
{
    for one in names {
        if one.as_str() == name {
            return true;
        }
    }
    false
}

/// Those that may connect.
#[derive(Drop)]
pub struct Users {
    pub users: Items<User>,
    /// Of which the salts of unknown users are made: random, and the same for as long as the server runs.
    pub secret: [u8; SECRET_BYTES],
}

impl Users {
    /// The user of this name; None where there is none. Where a name stood twice, the last one would count.
    pub fn user_of(&self, name: &str) -> Option<&User>
        ensures { option_map (λ user. user.now) result ≡ user_of self.now name.now }
    {
        let mut found = None;
        for user in self.users.as_slice() {
            if user.name.as_str() == name {
                found = Some(user);
            }
        }
        found
    }

    /// Whether the user of this name may follow these publications, one that isn't there none.
    pub fn may_follow(&self, user: &str, names: &[Text]) -> bool
        ensures { result ≡ may_follow_all (user_of self.now user.now) names.now }
    {
        match self.user_of(user) {
            Some(user) => follows_all(user, names),
            None => false,
        }
    }

    /// Of whom a proof is asked that calls itself so: an unknown user is asked as others are, and in the same time.
    /// `AllocError` where memory is refused.
    pub fn account_of(&self, alloc: Global, name: &str) -> Result<Account, AllocError>
        ensures { IfOk result (λ account. IsAccountOf self.now name.now account) }
    {
        let unknown = Account::unknown(alloc, &self.secret, name.as_bytes())?;
        match self.user_of(name) {
            Some(user) => Ok(Account::known(user.verifier)),
            None => Ok(unknown),
        }
    }
}

fn follows_all(user: &User, names: &[Text]) -> bool
    ensures { result ≡ follows_all user.now names.now }
{
    for name in names {
        if !user.may_follow(name.as_str()) {
            return false;
        }
    }
    true
}
