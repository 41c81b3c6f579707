//! Slots by their names, and whose they are.

ghost use Rattle.std.specs.Prelude.{◌≡◌, ◌<◌, ◌⊎◌, ℕ, Err, None, Some, IfOk, IfSome, OnErr, OnOk, false, option_map, true};
ghost use Rattle.slots.specs.Directories.{AreSame, ChangesOnly, place_of};
ghost use Rattle.slots.specs.declared.table.TheConstants.{END_OF_PLACES};
ghost use Rattle.server.specs.declared.backend_fault.BackendFault.TheVariants.{NotOwner};
ghost use Rattle.server_state.specs.Owners.{ChangesOwner, HaveSameOwners, may_use, owner_of};

use crate::kept::owners::Owners;
use crate::publications::refusals::of_slot;
use connections::Names;
use pqformat::Text;
use server::BackendFault;
use slots::{SlotName, SlotTable};
use std::alloc::{AllocError, Global};

/// The slots by name, with the seat that makes and drops them, and the users that made them.
#[derive(Drop)]
pub(crate) struct OwnedNames<L: SlotName> {
    names: Names<L>,
    owners: Owners,
}

impl<L: SlotName> OwnedNames<L> {
    /// Slots of nobody.
    pub fn of(alloc: Global, names: Names<L>) -> Self
        ensures { result.names ≡ names }
    {
        OwnedNames {
            names,
            owners: Owners::new(alloc),
        }
    }

    /// The place of the slot of this name. None: there is none.
    pub fn place_of(&self, name: &str) -> Option<usize>
        ensures named { result ≡ place_of self.now.names.directory name.now }
        ensures inside { IfSome result (λ place. place < END_OF_PLACES) }
    {
        self.names.place_of(name)
    }

    /// Whether this user, if any, may use the slot of this name, if there is one.
    pub fn may_use(&self, name: &str, user: Option<&str>) -> bool
        ensures { result ≡ may_use (owner_of self.now.owners name.now)
            (option_map (λ user. user.now) user.entry) }
    {
        self.owners.may_use(name, user)
    }

    /// A copy of the name of the user that made the slot of this name, where it had to prove its password. `AllocError` where memory
    /// for it is refused.
    pub fn owner_of(&self, alloc: Global, name: &str) -> Result<Option<Text>, AllocError>
        ensures { IfOk result (λ owner. owner ≡ owner_of self.now.owners name.now) }
    {
        self.owners.owner_of(alloc, name)
    }

    /// Makes a slot of a new name at this position, which is this user's, or anyone's. A slot that is there stays whose it is:
    /// `SlotExists` (L3). `NoSlotPlace` (L4) where there are as many slots as may be. Or `Memory`.
    pub fn create(
        &mut self,
        slots: &SlotTable<L>,
        name: &str,
        owner: Option<Text>,
        position: u64,
    ) -> Result<(), BackendFault>
        ensures new { OnOk result (place_of self.old.names.directory name.now ≡ None) }
        ensures ok { OnOk result
            ((place : ℕ) × ChangesOnly self.old.names.directory self.new.names.directory name.now
            (Some place)) }
        ensures owner { OnOk result
            (ChangesOwner self.old.owners self.new.owners name.now owner) }
        ensures err { OnErr result
            (AreSame self.old.names.directory self.new.names.directory) }
        ensures kept { OnErr result (HaveSameOwners self.old.owners self.new.owners
            ⊎ ((place_of self.old.names.directory name.now ≡ None)
            × ChangesOwner self.old.owners self.new.owners name.now None)) }
    {
        if self.names.place_of(name).is_some() {
            drop(owner);
            return Err(BackendFault::SlotExists);
        }
        if self.owners.set(name, owner).is_err() {
            return Err(BackendFault::Memory);
        }
        if let Err(fault) = self.names.create(slots, name, position) {
            self.owners.forget(name);
            return Err(of_slot(fault));
        }
        Ok(())
    }

    /// Drops the slot of this name, and answers its place. Refused in this order, and then nothing changes: `NotOwner` (A3) where
    /// it is another user's, `SlotMissing` (L1), `SlotInUse` (L2).
    pub fn drop_slot(
        &mut self,
        slots: &SlotTable<L>,
        name: &str,
        user: Option<&str>,
    ) -> Result<usize, BackendFault>
        ensures right { OnOk result (may_use (owner_of self.old.owners name.now)
            (option_map (λ user. user.now) user.entry) ≡ true) }
        ensures refused { may_use (owner_of self.old.owners name.now)
            (option_map (λ user. user.now) user.entry) ≡ false →
            (result ≡ Err NotOwner) × (self.new ≡ self.old) }
        ensures place { IfOk result
            (λ place. place_of self.old.names.directory name.now ≡ Some place) }
        ensures ok { OnOk result
            (ChangesOnly self.old.names.directory self.new.names.directory name.now None
            × ChangesOwner self.old.owners self.new.owners name.now None) }
        ensures err { OnErr result
            (AreSame self.old.names.directory self.new.names.directory
            × HaveSameOwners self.old.owners self.new.owners) }
    {
        if !self.owners.may_use(name, user) {
            return Err(BackendFault::NotOwner);
        }
        let Some(place) = self.names.place_of(name) else {
            return Err(BackendFault::SlotMissing);
        };
        if let Err(fault) = self.names.drop_slot(slots, name) {
            return Err(of_slot(fault));
        }
        self.owners.forget(name);
        Ok(place)
    }
}
