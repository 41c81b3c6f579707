//! What is kept of each xid, and which xids each transaction has.
//!
//! A record costs a look-up or two, whatever the length of the log. Only the end of a transaction goes over its xids,
//! and then nothing of them is left but the changes that are ready.

ghost use Rattle.std.specs.Prelude.{◌≡◌, ◌≢◌, ◌==◌, Err, Option, true, ℕ, ◌+◌, ◌<◌, ◌≤◌, slice_get, sum_by, [], ◌∷◌, List, Some, None, false, IsSome, IfOk, MatchBool, OnOk, length, nat_eq, reverse, if◌then◌else◌, ◌&&◌};
ghost use Rattle.std.specs.Map.{lookup};
ghost use Rattle.std.specs.HashMap.{get};
ghost use Rattle.std.specs.Option.{option_map};
ghost use Rattle.wal.specs.Log.{last_of};
ghost use Rattle.reorder.specs.Entries.{IsEntry, entry_in};
ghost use Rattle.chgarena.specs.Strands.{fills};
ghost use Rattle.reorder.specs.Chunks.{HasNoRoom, IsTidy, IsWhole, StaysTidy, StaysWhole, chunks_for, strands_alone};
ghost use Rattle.reorder.specs.Pool.{AreApart, HoldEntries, IsLent, IsPool, Lasts, StaysLent, entries_at, map_with, strand_of};
ghost use Rattle.reorder.specs.Lents.{strands_in};
ghost use Rattle.reorder.specs.Ready.{IsReadyIn, PlaceState, ReadyState, bytes_at, lent_from, ready_entries};
ghost use Rattle.reorder.specs.Settled.{heads_of, ready_chunks, ready_heads, without_all};
ghost use Rattle.reorder.specs.Strands.{AreDistinct, AreMerged, IsSame, above_of, above_standing, all_in, with_subtransaction, back_in, behind, without_transaction, is_in, by_xid, with_change_of, with_transaction, after_rollback_of, changes_at, with_member};

use crate::fault::ReorderFault;
use crate::places::lent::Lent;
use crate::places::members::Members;
use crate::places::pool::Pool;
use crate::ready::CommittedChanges;
use crate::subxact_ancestors::SubxactAncestors;
use chgarena::Arena;
use std::alloc::{AllocError, Global};
use std::collections::HashMap;
use std::marker::Model;

/// The strands of all xids of the transactions in progress, and the changes of these xids and of what is ready.
#[derive(Drop)]
pub(crate) struct Strands {
    pub(crate) alloc: Global,
    pub(crate) strands: HashMap<u32, SubxactAncestors>,
    pub(crate) members: HashMap<u32, Members>,
    pub(crate) pool: Pool,
}

impl Model for Strands {
    ghost use Rattle.std.specs.Prelude.{ℕ};
    ghost use Rattle.std.specs.List.{AllByRecursion};
    ghost use Rattle.reorder.specs.Entries.{IsEntry};
    ghost use Rattle.reorder.specs.Pool.{entries_at};
    ghost use Rattle.reorder.specs.Strands.{StrandsState};

    ghost Value = { StrandsState };

    ghost view = { λ s. record {
      strands = s.strands.entries;
      members = s.members.entries;
      pool = s.pool;
    } };
}

impl Strands {
    pub(crate) fn new(alloc: Global, arena: Arena) -> Self
        ensures strands { result.strands ≡ [] }
        ensures members { result.members ≡ [] }
        ensures pool { (x : ℕ) → entries_at result.pool x ≡ [] }
        ensures arena { result.pool.arena ≡ arena }
    {
        Strands {
            alloc,
            strands: HashMap::new(alloc),
            members: HashMap::new(alloc),
            pool: Pool::new(alloc, arena),
        }
    }

    /// How many chunks of the arena are free.
    pub(crate) fn free(&self) -> usize
        ensures free { result + fills self.now.pool.arena ≡ length self.now.pool.arena }
        ensures pool { IsPool self.now.pool.arena self.now.pool.strands }
        ensures hold { HoldEntries self.now.pool.arena self.now.pool.strands }
    {
        self.pool.free()
    }

    /// Whether there is no room for one more entry of this length of an xid.
    pub(crate) fn is_full_for(&self, xid: u32, length: usize) -> bool
        requires { length ≤ 16380 }
        ensures room { MatchBool result (HasNoRoom self.now.pool xid length)
            (HasNoRoom self.now.pool xid length → ⊥) }
        ensures pool { IsPool self.now.pool.arena self.now.pool.strands }
        ensures hold { HoldEntries self.now.pool.arena self.now.pool.strands }
    {
        self.pool.is_full_for(xid, length)
    }

    /// Makes the xid a transaction, unless it has a strand.
    pub(crate) fn open(&mut self, xid: u32) -> Result<(), AllocError>
        ensures known { OnOk result (IsSome ((by_xid self.old).strand xid) → self.new ≡ self.old) }
        ensures fresh { OnOk result
            ((by_xid self.old).strand xid ≡ None →
            IsSame (by_xid self.new) (with_transaction xid (by_xid self.old))) }
        ensures there { OnOk result (IsSome (lookup (λ k. xid == k) self.new.strands)) }
        ensures tidy { OnOk result (StaysTidy self.old self.new) }
        ensures lent { StaysLent self.old.pool self.new.pool }
        ensures size { length self.new.pool.arena ≡ length self.old.pool.arena }
    {
        if self.strands.contains_key(&xid) {
            return Ok(());
        }
        self.start(xid)
    }

    /// Makes an xid without a strand a transaction.
    fn start(&mut self, xid: u32) -> Result<(), AllocError>
        ensures started { OnOk result
            (IsSame (by_xid self.new) (with_transaction xid (by_xid self.old))) }
        ensures there { OnOk result (IsSome (lookup (λ k. xid == k) self.new.strands)) }
        ensures tidy { OnOk result (StaysTidy self.old self.new) }
        ensures lent { StaysLent self.old.pool self.new.pool }
        ensures size { length self.new.pool.arena ≡ length self.old.pool.arena }
    {
        self.members.insert(xid, Members::of(xid))?;
        self.strands
            .insert(xid, SubxactAncestors::under(Vec::new(self.alloc)))?;
        self.pool.give_back(xid);
        Ok(())
    }

    /// Adds an entry to the strand of an xid that has one.
    pub(crate) fn push(&mut self, xid: u32, entry: &[u8]) -> Result<(), ReorderFault>
        requires entry { IsEntry entry.now }
        requires fits { length entry.now ≤ 16380 }
        ensures ok { OnOk result
            (IsSame (by_xid self.new)
            (with_change_of xid (entry_in xid entry.now) (by_xid self.old))) }
        ensures tidy { OnOk result
            (IsSome (lookup (λ k. xid == k) self.old.strands) → StaysTidy self.old self.new) }
        ensures lent { StaysLent self.old.pool self.new.pool }
        ensures size { length self.new.pool.arena ≡ length self.old.pool.arena }
        ensures filled { result ≡ Err ReorderFault.Full →
            fills self.new.pool.arena ≡ length self.new.pool.arena }
        ensures full { result ≡ Err ReorderFault.Full →
            HasNoRoom self.old.pool xid (length entry.now) }
        ensures running { result ≢ Err ReorderFault.Failed }
    {
        self.pool.push(xid, entry)
    }

    /// Rolls back an xid that has a strand.
    pub(crate) fn undo(&mut self, xid: u32)
        ensures undone { IsSame (by_xid self.new) (after_rollback_of xid (by_xid self.old)) }
        ensures tidy { StaysTidy self.old self.new }
        ensures lent { StaysLent self.old.pool self.new.pool }
        ensures size { length self.new.pool.arena ≡ length self.old.pool.arena }
    {
        self.give_back_under(xid);
        self.pool.give_back(xid);
    }

    /// The transaction of an xid; one without a strand is its own.
    fn top_of(&self, xid: u32) -> u32
        ensures { result ≡ last_of xid (above_standing (lookup (λ k. xid == k) self.now.strands)) }
    {
        match self.strands.get(&xid) {
            Some(strand) => last_or(xid, strand.above()),
            None => xid,
        }
    }

    /// Gives back the changes of all xids under this one.
    fn give_back_under(&mut self, xid: u32)
        ensures strands { self.new.strands ≡ self.old.strands }
        ensures members { self.new.members ≡ self.old.members }
        ensures pool { (x : ℕ) →
            entries_at self.new.pool x
            ≡ (if is_in x (behind xid (back_in self.old xid))
            && is_in xid (above_standing (lookup (λ k. x == k) self.old.strands))
            then [] else entries_at self.old.pool x) }
        ensures whole { StaysWhole self.old.pool self.new.pool }
        ensures lent { StaysLent self.old.pool self.new.pool }
    {
        let top = self.top_of(xid);
        if let Some(members) = self.members.get(&top) {
            give_back_after(&mut self.pool, &self.strands, members.as_slice(), xid);
        }
    }

    /// Puts an xid without a strand under another that has one.
    pub(crate) fn assign(&mut self, sub: u32, parent: u32) -> Result<(), AllocError>
        ensures assigned { OnOk result
            (IsSame (by_xid self.new) (with_subtransaction sub parent (by_xid self.old))) }
        ensures tidy { OnOk result (StaysTidy self.old self.new) }
        ensures lent { StaysLent self.old.pool self.new.pool }
        ensures size { length self.new.pool.arena ≡ length self.old.pool.arena }
    {
        let above = self.chain(parent)?;
        let top = last_or(parent, above.as_slice());
        add_member(self.alloc, &mut self.members, top, sub)?;
        self.strands.insert(sub, SubxactAncestors::under(above))?;
        self.pool.give_back(sub);
        Ok(())
    }

    /// The xid, and those above it up to its transaction.
    fn chain(&self, xid: u32) -> Result<Vec<u32>, AllocError>
        ensures { IfOk result (λ v. v.items ≡ xid ∷ above_of (by_xid self.now) xid) }
    {
        let mut chain = Vec::new(self.alloc);
        chain.push(xid)?;
        if let Some(strand) = self.strands.get(&xid) {
            chain.extend_from_slice(strand.above())?;
        }
        Ok(chain)
    }

    /// Gives up all xids of a transaction, and their changes.
    pub(crate) fn end(&mut self, top: u32)
        ensures ended { IsSame (by_xid self.new) (without_transaction top (by_xid self.old)) }
        ensures tidy { StaysTidy self.old self.new }
        ensures lent { StaysLent self.old.pool self.new.pool }
        ensures size { length self.new.pool.arena ≡ length self.old.pool.arena }
    {
        if let Some(members) = self.members.remove(&top) {
            remove_all(&mut self.strands, members.as_slice());
            give_back_all(&mut self.pool, members.as_slice());
            drop(members);
        }
    }

    /// Gives up all xids of a transaction, but for their changes: those that it keeps are ready, and lie where nobody else comes.
    pub(crate) fn make_ready(&mut self, top: u32) -> Result<CommittedChanges, AllocError>
        ensures ended { OnOk result
            (IsSame (by_xid self.new) (without_transaction top (by_xid self.old))) }
        ensures merged { IfOk result
            (λ r. AreMerged (by_xid self.old) top (ready_entries self.new.pool r)) }
        ensures ready { IfOk result (λ r. IsReadyIn self.new.pool r) }
        ensures apart { IfOk result
            (λ r. (lent : List (ℕ × Option ℕ)) → IsLent self.old.pool lent →
            AreApart r.strands lent) }
        ensures tidy { IfOk result
            (λ r. (count : ℕ) (held : List ReadyState) → IsTidy count held self.old →
            IsTidy count (r ∷ held) self.new) }
        ensures chunks { IfOk result
            (λ r. AreDistinct (all_in ((by_xid self.old).members top)) →
            ready_chunks self.new.pool.arena r
            ≡ sum_by (λ x. chunks_for (changes_at self.old.pool x))
            (all_in ((by_xid self.old).members top))) }
        ensures lent { StaysLent self.old.pool self.new.pool }
        ensures size { length self.new.pool.arena ≡ length self.old.pool.arena }
    {
        let order = self.order(top)?;
        let members = remove_members(self.alloc, &mut self.members, top);
        remove_all(&mut self.strands, members.as_slice());
        let strands = self.pool.lend_all(self.alloc, members.as_slice())?;
        Ok(CommittedChanges::new(members, strands, order))
    }

    /// The k-th entry of what is ready.
    pub(crate) fn entry<'a>(&'a self, ready: &mut CommittedChanges, k: usize) -> &'a [u8]
        requires ready { IsReadyIn self.now.pool ready.old }
        requires within { k < length ready.old.places }
        ensures value { (at : PlaceState) → slice_get ready.old.places k ≡ Some at →
            result.now ≡ bytes_at (lent_from self.now.pool ready.old) at }
        ensures entry { IsEntry result.now }
        ensures same { ready.new ≡ ready.old }
    {
        let place = ready.place(k);
        let mut near = place.near;
        let entry = self
            .pool
            .entry(ready.strands(), place.xid, place.place, &mut near);
        ready.note_near(near);
        entry
    }

    /// Gives back the changes of what was ready.
    pub(crate) fn give_back(&mut self, ready: CommittedChanges)
        requires { IsReadyIn self.old.pool ready }
        ensures strands { self.new.strands ≡ self.old.strands }
        ensures members { self.new.members ≡ self.old.members }
        ensures entries { (x : ℕ) → entries_at self.new.pool x ≡ entries_at self.old.pool x }
        ensures own { self.new.pool.strands ≡ self.old.pool.strands }
        ensures arena { self.new.pool.arena ≡ without_all self.old.pool.arena (ready_heads ready) }
        ensures tidy { (count : ℕ) (held : List ReadyState) → IsTidy count (ready ∷ held) self.old →
            IsTidy count held self.new }
        ensures lent { (lent : List (ℕ × Option ℕ)) → IsLent self.old.pool lent →
            AreApart ready.strands lent → Lasts self.old.pool self.new.pool lent }
    {
        let (members, strands) = ready.into_parts();
        take_back_all(&mut self.pool, strands, members.as_slice());
    }
}

/// The last of these xids, or the xid where there is none.
fn last_or(xid: u32, xids: &[u32]) -> u32
    ensures { result ≡ last_of xid xids.now }
{
    match xids {
        [] => xid,
        [.., last] => *last,
    }
}

/// Adds an xid to those of a transaction.
fn add_member(
    alloc: Global,
    members: &mut HashMap<u32, Members>,
    top: u32,
    sub: u32,
) -> Result<(), AllocError>
    ensures { OnOk result
        ((t : ℕ) →
        get nat_eq members.new t
        ≡ map_with top (option_map (with_member sub) (get nat_eq members.old top))
        (get nat_eq members.old) t) }
{
    if let Some(xids) = members.get_mut(&top) {
        xids.push(alloc, sub)?;
    }
    Ok(())
}

/// Gives up the xids of a transaction, and answers them.
fn remove_members(alloc: Global, members: &mut HashMap<u32, Members>, top: u32) -> Members
    ensures xids { result ≡ all_in (get nat_eq members.old top) }
    ensures gone { (t : ℕ)
        → get nat_eq members.new t ≡ map_with top None (get nat_eq members.old) t }
{
    match members.remove(&top) {
        Some(members) => members,
        None => Members::none(alloc),
    }
}

/// Gives up the strands of these xids.
fn remove_all(strands: &mut HashMap<u32, SubxactAncestors>, xids: &[u32])
    ensures { (x : ℕ) →
        get nat_eq strands.new x ≡ (if is_in x xids.now then None else get nat_eq strands.old x) }
{
    for xid in xids {
        strands.remove(xid);
    }
}

/// Gives back the entries of these xids.
fn give_back_all(pool: &mut Pool, xids: &[u32])
    ensures entries { (x : ℕ) →
        entries_at pool.new x ≡ (if is_in x xids.now then [] else entries_at pool.old x) }
    ensures whole { StaysWhole pool.old pool.new }
    ensures lent { StaysLent pool.old pool.new }
{
    for xid in xids {
        pool.give_back(*xid);
    }
}

/// Gives back strands that were lent, of which these are the xids.
fn take_back_all(pool: &mut Pool, mut lent: Lent, xids: &[u32])
    requires { IsLent pool.old (strands_in lent) }
    ensures strands { pool.new.strands ≡ pool.old.strands }
    ensures arena { pool.new.arena
        ≡ without_all pool.old.arena (heads_of (strand_of (strands_in lent)) xids.now) }
    ensures entries { (x : ℕ) → entries_at pool.new x ≡ entries_at pool.old x }
    ensures others { (others : List (ℕ × Option ℕ)) → IsLent pool.old others →
        AreApart (strands_in lent) others → Lasts pool.old pool.new others }
    ensures chunks { length pool.new.arena ≡ length pool.old.arena }
    ensures whole { ((x : ℕ) → IsSome (strand_of (strands_in lent) x) → is_in x xids.now ≡ true) →
        (held : List ReadyState) → IsWhole (strands_alone (strands_in lent) ∷ held) pool.old →
        IsWhole held pool.new }
{
    for xid in xids {
        if let Some(strand) = lent.remove(*xid) {
            pool.take_back(strand);
        }
    }
}

/// Gives back the entries of those xids that are under this one. They stand after it.
fn give_back_after(
    pool: &mut Pool,
    strands: &HashMap<u32, SubxactAncestors>,
    xids: &[u32],
    xid: u32,
)
    ensures whole { StaysWhole pool.old pool.new }
    ensures lent { StaysLent pool.old pool.new }
    ensures entries { (x : ℕ) →
        entries_at pool.new x
        ≡ (if is_in x (behind xid (reverse xids.now))
        && is_in xid (above_standing (get nat_eq strands.now x))
        then [] else entries_at pool.old x) }
{
    let mut left = xids.len();
    while left > 0 && xids[left - 1] != xid {
        left -= 1;
        if is_under(strands, xids[left], xid) {
            pool.give_back(xids[left]);
        }
    }
}

/// Whether an xid is under another.
fn is_under(strands: &HashMap<u32, SubxactAncestors>, xid: u32, other: u32) -> bool
    ensures { result ≡ is_in other (above_standing (get nat_eq strands.now xid)) }
{
    match strands.get(&xid) {
        Some(strand) => strand.above().contains(&other),
        None => false,
    }
}
