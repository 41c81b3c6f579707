//! The names of slots, each with its place in a table.

ghost use Rattle.std.specs.Prelude.{◌≡◌, ◌+◌, ◌≤◌, ℕ, List, IfErr, None, OnErr, OnOk, Some};

use crate::fault::SlotFault;
use std::alloc::Global;
use std::collections::BTreeMap;

/// Which place has a slot of which name. Contracts see a place for each name, or none.
#[derive(Drop)]
pub struct Directory {
    alloc: Global,
    places: BTreeMap<String, usize>,
}

impl Directory {
    ghost use Rattle.slots.specs.Directories.{AreSame, ChangesOnly, adding_fault, count_of, place_of};

    /// A directory of no names. It takes no memory.
    pub fn new(alloc: Global) -> Self
        ensures none { (name : List ℕ) → place_of result name ≡ None }
        ensures count { count_of result ≡ 0 }
    {
        Directory {
            alloc,
            places: BTreeMap::new(alloc),
        }
    }

    /// The place of this name; None where there is no such name. It takes no memory.
    pub fn find(&self, name: &str) -> Option<usize>
        ensures { result ≡ place_of self.now name.now }
    {
        self.places.get(name).copied()
    }

    /// How many names there are.
    pub fn count(&self) -> usize
        ensures { result ≡ count_of self.now }
    {
        self.places.len()
    }

    /// Gives a new name its place. `Exists` (L3) where the name is there, `Memory` (L5) where memory for it is refused.
    pub fn add(&mut self, name: &str, place: usize) -> Result<(), SlotFault>
        ensures new { OnOk result (place_of self.old name.now ≡ None) }
        ensures ok { OnOk result (ChangesOnly self.old self.new name.now (Some place)) }
        ensures err { OnErr result (AreSame self.old self.new) }
        ensures fault { IfErr result (λ e. e ≡ adding_fault (place_of self.old name.now)) }
        ensures count { count_of self.new ≤ count_of self.old + 1 }
    {
        if self.places.contains_key(name) {
            return Err(SlotFault::Exists);
        }
        let name = String::from_str(self.alloc, name)?;
        self.places.insert(name, place)?;
        Ok(())
    }

    /// Forgets this name, and answers its place; None where there is no such name. It takes no memory.
    pub fn remove(&mut self, name: &str) -> Option<usize>
        ensures place { result ≡ place_of self.old name.now }
        ensures others { ChangesOnly self.old self.new name.now None }
        ensures count { count_of self.new ≤ count_of self.old }
    {
        self.places.remove(name)
    }
}
