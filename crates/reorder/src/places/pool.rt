//! The entries of each xid, in an arena.

ghost use Rattle.std.specs.Prelude.{◌≡◌, ◌≢◌, Err, None, Some, ℕ, false, ◌+◌, ◌<◌, ◌≤◌, ◌++◌, ◌∷◌, [], get_or, length, IfOk, IsOk, IsSome, MatchBool, OnErr, OnOk, if◌then◌else◌};
ghost use Rattle.std.specs.List.{AllByRecursion};
ghost use Rattle.reorder.specs.Entries.{IsEntry};
ghost use Rattle.chgarena.specs.Strands.{IsOf, arena_without, fills, has_room};
ghost use Rattle.reorder.specs.Strands.{is_in};
ghost use Rattle.reorder.specs.Chunks.{HasNoRoom, StaysWhole};
ghost use Rattle.reorder.specs.Lents.{strands_in};
ghost use Rattle.reorder.specs.Pool.{HoldEntries, IsLent, IsPool, IsSameAt, PushesAt, StaysLent, entries_at, entries_by, entries_in, map_with, strand_of, with_entries};

use crate::fault::ReorderFault;
use crate::places::lent::Lent;
use chgarena::{Arena, Entries, Full, Strand};
use std::alloc::{AllocError, Global};
use std::collections::HashMap;
use std::marker::Model;

/// The entries of each xid, in an arena. Contracts see them as lists.
#[derive(Drop)]
pub(crate) struct Pool {
    arena: Arena,
    strands: HashMap<u32, Strand>,
}

impl Model for Pool {
    ghost use Rattle.reorder.specs.Pool.{HoldEntries, IsPool, PoolState};

    ghost Value = { PoolState };

    ghost view = { λ p. record { arena = p.arena; strands = p.strands.entries } };

    ghost invariant = { λ p. IsPool p.arena p.strands.entries
        × HoldEntries p.arena p.strands.entries };
}

impl Pool {
    /// No entries.
    pub(crate) fn new(alloc: Global, arena: Arena) -> Self
        ensures entries { (x : ℕ) → entries_at result x ≡ [] }
        ensures arena { result.arena ≡ arena }
    {
        Pool {
            arena,
            strands: HashMap::new(alloc),
        }
    }

    /// How many chunks are free.
    pub(crate) fn free(&self) -> usize
        ensures free { result + fills self.now.arena ≡ length self.now.arena }
        ensures pool { IsPool self.now.arena self.now.strands }
        ensures hold { HoldEntries self.now.arena self.now.strands }
    {
        self.arena.free()
    }

    /// Whether there is no room for one more entry of this length of an xid.
    pub(crate) fn is_full_for(&self, xid: u32, length: usize) -> bool
        requires { length ≤ 16380 }
        ensures room { MatchBool result (HasNoRoom self.now xid length)
            (HasNoRoom self.now xid length → ⊥) }
        ensures pool { IsPool self.now.arena self.now.strands }
        ensures hold { HoldEntries self.now.arena self.now.strands }
    {
        if self.arena.free() > 0 {
            return false;
        }
        match self.strands.get(&xid) {
            Some(strand) => !self.arena.has_room_for(strand, length),
            None => true,
        }
    }

    /// Adds an entry to those of an xid.
    pub(crate) fn push(&mut self, xid: u32, entry: &[u8]) -> Result<(), ReorderFault>
        requires entry { IsEntry entry.now }
        requires fits { length entry.now ≤ 16380 }
        ensures ok { OnOk result
            ((x : ℕ) →
            entries_at self.new x
            ≡ with_entries self.old xid (entries_at self.old xid ++ entry.now ∷ []) x) }
        ensures whole { OnOk result (StaysWhole self.old self.new) }
        ensures lent { StaysLent self.old self.new }
        ensures full { result ≡ Err ReorderFault.Full → HasNoRoom self.old xid (length entry.now) }
        ensures filled { result ≡ Err ReorderFault.Full →
            fills self.new.arena ≡ length self.new.arena }
        ensures size { length self.new.arena ≡ length self.old.arena }
        ensures running { result ≢ Err ReorderFault.Failed }
    {
        self.open(xid)?;
        match push_at(&mut self.arena, &mut self.strands, xid, entry) {
            Ok(()) => Ok(()),
            Err(Full) => Err(ReorderFault::Full),
        }
    }

    /// Makes a place for the entries of an xid, unless it has one.
    fn open(&mut self, xid: u32) -> Result<(), AllocError>
        ensures same { OnOk result ((x : ℕ) → entries_at self.new x ≡ entries_at self.old x) }
        ensures place { OnOk result (IsSome (strand_of self.new.strands xid)) }
        ensures arena { OnOk result (self.new.arena ≡ self.old.arena) }
        ensures size { length self.new.arena ≡ length self.old.arena }
        ensures whole { OnOk result (StaysWhole self.old self.new) }
        ensures lent { StaysLent self.old self.new }
        ensures pool { IsPool self.old.arena self.old.strands }
        ensures hold { HoldEntries self.old.arena self.old.strands }
    {
        if !self.strands.contains_key(&xid) {
            self.strands.insert(xid, self.arena.strand())?;
        }
        Ok(())
    }

    /// Gives back the entries of an xid.
    pub(crate) fn give_back(&mut self, xid: u32)
        ensures entries { (x : ℕ) → entries_at self.new x ≡ with_entries self.old xid [] x }
        ensures whole { StaysWhole self.old self.new }
        ensures lent { StaysLent self.old self.new }
    {
        if let Some(strand) = self.strands.remove(&xid) {
            self.arena.give_back(strand);
        }
    }

    /// Lends the strand of an xid, if it has one.
    pub(crate) fn lend(&mut self, xid: u32) -> Option<Strand>
        ensures strand { result ≡ strand_of self.old.strands xid }
        ensures others { (x : ℕ) →
            strand_of self.new.strands x ≡ map_with xid None (strand_of self.old.strands) x }
        ensures arena { self.new.arena ≡ self.old.arena }
        ensures lent { StaysLent self.old self.new }
        ensures pool { IsPool self.old.arena self.old.strands }
        ensures hold { HoldEntries self.old.arena self.old.strands }
    {
        self.strands.remove(&xid)
    }

    /// Lends the strands of these xids. For one alone it takes no memory.
    pub(crate) fn lend_all(&mut self, alloc: Global, xids: &[u32]) -> Result<Lent, AllocError>
        ensures alone { length xids.now ≡ 1 → IsOk result }
        ensures strands { IfOk result
            (λ lent. (x : ℕ) →
            strand_of (strands_in lent) x
            ≡ (if is_in x xids.now then strand_of self.old.strands x else None)) }
        ensures left { OnOk result
            ((x : ℕ) →
            strand_of self.new.strands x
            ≡ (if is_in x xids.now then None else strand_of self.old.strands x)) }
        ensures arena { self.new.arena ≡ self.old.arena }
        ensures lent { StaysLent self.old self.new }
        ensures pool { IsPool self.old.arena self.old.strands }
        ensures hold { HoldEntries self.old.arena self.old.strands }
    {
        match xids {
            [xid] => Ok(Lent::One(*xid, self.lend(*xid))),
            _ => Ok(Lent::Several(self.lend_each(alloc, xids)?)),
        }
    }

    /// Lends the strands of these xids, one after the other.
    fn lend_each(&mut self, alloc: Global, xids: &[u32]) -> Result<HashMap<u32, Strand>, AllocError>
        ensures strands { IfOk result
            (λ lent. (x : ℕ) →
            strand_of lent.entries x
            ≡ (if is_in x xids.now then strand_of self.old.strands x else None)) }
        ensures left { OnOk result
            ((x : ℕ) →
            strand_of self.new.strands x
            ≡ (if is_in x xids.now then None else strand_of self.old.strands x)) }
        ensures arena { self.new.arena ≡ self.old.arena }
        ensures lent { StaysLent self.old self.new }
        ensures pool { IsPool self.old.arena self.old.strands }
        ensures hold { HoldEntries self.old.arena self.old.strands }
    {
        // The strands are in order: here the prover learns it.
        let _ = &self.strands;
        let mut lent = HashMap::new(alloc);
        for xid in xids {
            if let Some(strand) = self.lend(*xid) {
                lent.insert(*xid, strand)?;
            }
        }
        Ok(lent)
    }

    /// Gives back a strand that was lent.
    pub(crate) fn take_back(&mut self, strand: Strand)
        requires of { IsOf self.old.arena strand }
        requires apart { (x head : ℕ) → strand_of self.old.strands x ≡ Some (Some head) →
            strand ≡ Some head → ⊥ }
        ensures arena { self.new.arena ≡ arena_without self.old.arena strand }
        ensures strands { self.new.strands ≡ self.old.strands }
        ensures pool { IsPool self.old.arena self.old.strands }
    {
        self.arena.give_back(strand);
    }

    /// The k-th entry of an xid of which the strand was lent. It is found at once where it lies in the chunk `near` or in the one after
    /// it; the chunk in which it lies is the next `near`.
    pub(crate) fn entry<'a>(&'a self, lent: &Lent, xid: u32, k: usize, near: &mut usize) -> &'a [u8]
        requires lent { IsLent self.now (strands_in lent.now) }
        requires within { k
            < length (entries_by self.now.arena (strand_of (strands_in lent.now) xid)) }
        ensures value { result.now
            ≡ get_or (entries_by self.now.arena (strand_of (strands_in lent.now) xid)) k [] }
        ensures entry { IsEntry result.now }
    {
        match lent.get(xid) {
            Some(strand) => self.arena.entry_near(strand, k, near),
            None => unreachable!(),
        }
    }

    /// How many entries an xid has.
    pub(crate) fn count(&self, xid: u32) -> usize
        ensures { result ≡ length (entries_at self.now xid) }
    {
        match self.strands.get(&xid) {
            Some(strand) => self.arena.count(strand),
            None => 0,
        }
    }

    /// The entries of an xid, in the order in which they were pushed.
    pub(crate) fn entries(&self, xid: u32) -> Option<Entries<'_>>
        ensures value { entries_in result ≡ entries_at self.now xid }
        ensures entries { AllByRecursion IsEntry (entries_in result) }
    {
        match self.strands.get(&xid) {
            Some(strand) => Some(self.arena.entries(strand)),
            None => None,
        }
    }
}

/// Adds an entry to those of an xid that has a place.
fn push_at(
    arena: &mut Arena,
    strands: &mut HashMap<u32, Strand>,
    xid: u32,
    entry: &[u8],
) -> Result<(), Full>
    requires pool { IsPool arena.old strands.old.entries }
    requires place { IsSome (strand_of strands.old.entries xid) }
    requires fits { length entry.now ≤ 16380 }
    ensures ok { OnOk result
        (PushesAt xid entry.now arena.old strands.old.entries arena.new strands.new.entries) }
    ensures err { OnErr result
        ((arena.new ≡ arena.old) × IsSameAt xid strands.old.entries strands.new.entries) }
    ensures full { OnErr result
        ((has_room (entries_by arena.old (strand_of strands.old.entries xid)) (length entry.now)
        ≡ false)
        × (fills arena.old ≡ length arena.old)) }
{
    match strands.get_mut(&xid) {
        Some(strand) => arena.push(strand, entry),
        None => unreachable!(),
    }
}
