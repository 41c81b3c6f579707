//! Where the changes lie that a transaction keeps.

ghost use Rattle.std.specs.Prelude.{◌≡◌, ℕ, ◌==◌, ◌+◌, ◌++◌, ◌∷◌, [], true, Ok, Some, None, IfOk, IfSome, OnOk, length, map, nat_eq};
ghost use Rattle.std.specs.HashMap.{get};
ghost use Rattle.std.specs.List.{All, AllByRecursion, flat_map};
ghost use Rattle.std.specs.List.Sorted.{IsNonDecreasingBy, IsStableByKey};
ghost use Rattle.std.specs.Map.{lookup};
ghost use Rattle.std.specs.Ordering.{nat_cmp};
ghost use Rattle.reorder.specs.Entries.{IsEntry};
ghost use Rattle.reorder.specs.Pool.{entries_at};
ghost use Rattle.reorder.specs.Ready.{IsPlace, entry_at};
ghost use Rattle.reorder.specs.Orders.{places_in};
ghost use Rattle.reorder.specs.Spots.{IsSpot, spots_from};
ghost use Rattle.reorder.specs.Strands.{AreMerged, all_in, by_xid, changes_in, is_in, kept_spots, spots_of, strand_at};

use crate::places::change_order::ChangeOrder;
use crate::places::entry::position_of;
use crate::places::place::Spot;
use crate::places::pool::Pool;
use crate::strands::Strands;
use crate::subxact_ancestors::SubxactAncestors;
use chgarena::Entries;
use std::alloc::{AllocError, Global};
use std::collections::HashMap;

impl Strands {
    /// The order of the changes that a transaction keeps.
    pub(crate) fn order(&self, top: u32) -> Result<ChangeOrder, AllocError>
        ensures merged { IfOk result
            (λ o. AreMerged (by_xid self.now) top (map (entry_at self.now.pool) (places_in o))) }
        ensures there { IfOk result (λ o. All (IsPlace self.now.pool) (places_in o)) }
        ensures own { IfOk result
            (λ o. All
            (λ at. is_in at.xid (all_in (lookup (λ k. top == k) self.now.members)) ≡ true)
            (places_in o)) }
        ensures lone { (xid : ℕ) → lookup (λ k. top == k) self.now.members ≡ Some (xid ∷ []) →
            (count : ℕ) × (result ≡ Ok (ChangeOrder.Whole xid count)) }
        ensures only { (xid count : ℕ) → result ≡ Ok (ChangeOrder.Whole xid count) →
            lookup (λ k. top == k) self.now.members ≡ Some (xid ∷ []) }
    {
        match self.lone_member(top) {
            Some(xid) => Ok(ChangeOrder::Whole {
                xid,
                count: self.count(xid),
            }),
            None => Ok(ChangeOrder::Listed(self.spots(top)?)),
        }
    }

    /// The xid of a transaction that has no other.
    fn lone_member(&self, top: u32) -> Option<u32>
        ensures some { IfSome result
            (λ xid. lookup (λ k. top == k) self.now.members ≡ Some (xid ∷ [])) }
        ensures lone { (xid : ℕ) → lookup (λ k. top == k) self.now.members ≡ Some (xid ∷ []) →
            result ≡ Some xid }
    {
        match self.members.get(&top)?.as_slice() {
            [xid] => Some(*xid),
            _ => None,
        }
    }

    /// How many changes of an xid are kept.
    fn count(&self, xid: u32) -> usize
        ensures { result
            ≡ length
            (changes_in
            (strand_at self.now.strands self.now.pool xid)) }
    {
        if self.strands.contains_key(&xid) {
            self.pool.count(xid)
        } else {
            0
        }
    }

    /// Where the changes lie that a transaction keeps, in the order of their positions.
    fn spots(&self, top: u32) -> Result<Vec<Spot>, AllocError>
        ensures rising { IfOk result (λ v. IsNonDecreasingBy (λ s. s.position) v.items) }
        ensures same { IfOk result
            (λ v. IsStableByKey (λ s. s.position) nat_cmp (spots_of self.now top) v.items) }
        ensures there { IfOk result (λ v. All (IsSpot self.now.pool) v.items) }
        ensures own { IfOk result
            (λ v. All
            (λ spot. is_in spot.xid (all_in (lookup (λ k. top == k) self.now.members)) ≡ true)
            v.items) }
    {
        let mut spots = self.joined(top)?;
        spots.sort_by_key(|spot| spot.position)?;
        Ok(spots)
    }

    /// Where the changes lie that a transaction keeps, xid after xid.
    fn joined(&self, top: u32) -> Result<Vec<Spot>, AllocError>
        ensures { IfOk result (λ v. v.items ≡ spots_of self.now top) }
    {
        match self.members.get(&top) {
            Some(members) => {
                let joined = joined_spots(
                    self.alloc,
                    &self.strands,
                    &self.pool,
                    members.as_slice(),
                )?;
                Ok(joined)
            }
            None => Ok(Vec::new(self.alloc)),
        }
    }
}

/// Where the changes lie that these xids keep, xid after xid.
pub(crate) fn joined_spots(
    alloc: Global,
    strands: &HashMap<u32, SubxactAncestors>,
    pool: &Pool,
    xids: &[u32],
) -> Result<Vec<Spot>, AllocError>
    ensures { IfOk result
        (λ v. v.items ≡ flat_map (kept_spots pool.now (get nat_eq strands.now)) xids.now) }
{
    let mut joined = Vec::new(alloc);
    for xid in xids {
        if strands.contains_key(xid) {
            add_spots(&mut joined, pool, *xid)?;
        }
    }
    Ok(joined)
}

/// Adds where the changes of an xid lie.
fn add_spots(joined: &mut Vec<Spot>, pool: &Pool, xid: u32) -> Result<(), AllocError>
    ensures { OnOk result
        (joined.new.items ≡ joined.old.items ++ spots_from xid 0 (entries_at pool.now xid)) }
{
    match pool.entries(xid) {
        Some(entries) => add_entries(joined, xid, entries),
        None => Ok(()),
    }
}

fn add_entries(joined: &mut Vec<Spot>, xid: u32, mut entries: Entries<'_>) -> Result<(), AllocError>
    requires { AllByRecursion IsEntry entries }
    ensures { OnOk result (joined.new.items ≡ joined.old.items ++ spots_from xid 0 entries.entry) }
{
    let before = joined.len();
    while let Some(entry) = entries.next() {
        joined.push(Spot {
            position: position_of(entry),
            xid,
            place: joined.len() - before,
            near: entries.chunk(),
        })?;
    }
    Ok(())
}
