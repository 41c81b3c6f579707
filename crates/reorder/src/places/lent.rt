//! The strands of what is ready.

ghost use Rattle.std.specs.Prelude.{◌≡◌, ℕ, None};
ghost use Rattle.std.specs.Option.{option_copied};
ghost use Rattle.reorder.specs.Lents.{strands_in};
ghost use Rattle.reorder.specs.Pool.{map_with, strand_of};

use chgarena::Strand;
use std::collections::HashMap;

/// Strands by their xids, which nobody else has.
#[derive(Drop)]
pub(crate) enum Lent {
    /// That of one xid, if it has one. It takes no memory: most transactions have no other xid.
    One(u32, Option<Strand>),
    Several(HashMap<u32, Strand>),
}

impl Lent {
    /// The strand of an xid.
    pub(crate) fn get(&self, xid: u32) -> Option<&Strand>
        ensures { option_copied result ≡ strand_of (strands_in self.now) xid }
    {
        match self {
            Lent::One(own, strand) if *own == xid => strand.as_ref(),
            Lent::One(_, _) => None,
            Lent::Several(strands) => strands.get(&xid),
        }
    }

    /// Takes the strand of an xid out.
    pub(crate) fn remove(&mut self, xid: u32) -> Option<Strand>
        ensures value { result ≡ strand_of (strands_in self.old) xid }
        ensures others { (x : ℕ) →
            strand_of (strands_in self.new) x
            ≡ map_with xid None (strand_of (strands_in self.old)) x }
    {
        match self {
            Lent::One(own, strand) if *own == xid => strand.take(),
            Lent::One(_, _) => None,
            Lent::Several(strands) => strands.remove(&xid),
        }
    }
}
