//! A store: changes undone and forgotten.

use crate::uses::items::{ITEM, configured, item};
use crate::uses::without_memory::answered;
use anyhow::Result;
use std::alloc::Global;
use store::Store;

/// The transaction that changes it.
const TOP: u32 = 700;

pub fn work(alloc: Global, is_called: bool) -> Result<()> {
    let mut store = Store::new(alloc, configured(alloc)?);
    with_store(&mut store, alloc, is_called)
}

fn with_store(store: &mut Store, alloc: Global, is_called: bool) -> Result<()> {
    insert(store, alloc, 1)?;
    insert(store, alloc, 2)?;
    let is_right = !is_called || is_undone(store);
    answered(is_right, "a store's calls answer otherwise")
}

fn insert(store: &mut Store, alloc: Global, id: i32) -> Result<()> {
    let row = item(alloc, id, "name", i64::from(id))?;
    store.insert(TOP, ITEM, row)?;
    Ok(())
}

fn is_undone(store: &mut Store) -> bool {
    let both = store.mark(TOP);
    store.undo_to(TOP, 1);
    let one = store.mark(TOP);
    store.forget(TOP);
    both == 2 && one == 1 && store.mark(TOP) == 0
}
