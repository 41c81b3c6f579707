//! The users that made slots.

ghost use Rattle.std.specs.Prelude.{◌≡◌, ℕ, List, IfOk, None, Some, OnErr, OnOk, option_map};
ghost use Rattle.server_state.specs.Owners.{ChangesOwner, HaveSameOwners, may_use, owner_of};

use pqformat::Text;
use std::alloc::{AllocError, Global};
use std::collections::BTreeMap;

/// Who made which slot, by its name, where its maker had to prove a password.
#[derive(Drop)]
pub(crate) struct Owners {
    alloc: Global,
    users: BTreeMap<String, Text>,
}

impl Owners {
    pub fn new(alloc: Global) -> Self
        ensures { (name : List ℕ) → owner_of result name ≡ None }
    {
        Owners {
            alloc,
            users: BTreeMap::new(alloc),
        }
    }

    /// Whether this user, if any, may use the slot of this name.
    pub fn may_use(&self, name: &str, user: Option<&str>) -> bool
        ensures { result
            ≡ may_use (owner_of self.now name.now) (option_map (λ user. user.now) user.entry) }
    {
        match (self.users.get(name), user) {
            (Some(owner), Some(user)) => owner.as_str() == user,
            (Some(_), None) => false,
            (None, _) => true,
        }
    }

    /// A copy of the name of the user that made the slot of this name. `AllocError` where memory for it is refused.
    pub fn owner_of(&self, alloc: Global, name: &str) -> Result<Option<Text>, AllocError>
        ensures { IfOk result (λ owner. owner ≡ owner_of self.now name.now) }
    {
        match self.users.get(name) {
            Some(owner) => Ok(Some(owner.copy(alloc)?)),
            None => Ok(None),
        }
    }

    /// The slot of this name is this user's, or anyone's. `AllocError` where memory is refused: then it stays whose it is.
    pub fn set(&mut self, name: &str, owner: Option<Text>) -> Result<(), AllocError>
        ensures ok { OnOk result (ChangesOwner self.old self.new name.now owner) }
        ensures err { OnErr result (HaveSameOwners self.old self.new) }
    {
        match owner {
            Some(owner) => self.add(name, owner),
            None => {
                self.forget(name);
                Ok(())
            }
        }
    }

    fn add(&mut self, name: &str, owner: Text) -> Result<(), AllocError>
        ensures ok { OnOk result (ChangesOwner self.old self.new name.now (Some owner)) }
        ensures err { OnErr result (HaveSameOwners self.old self.new) }
    {
        let name = match String::from_str(self.alloc, name) {
            Ok(name) => name,
            Err(refused) => {
                drop(owner);
                return Err(refused);
            }
        };
        self.users.insert(name, owner)?;
        Ok(())
    }

    /// No slot has this name.
    pub fn forget(&mut self, name: &str)
        ensures { ChangesOwner self.old self.new name.now None }
    {
        self.users.remove(name);
    }
}
