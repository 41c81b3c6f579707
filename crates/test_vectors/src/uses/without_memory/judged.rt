//! A filter's truth of a row, and a message written straight from a change's body.

ghost use Rattle.std.specs.Prelude.{◌≤◌, length};
ghost use Rattle.row_messages.specs.declared.room.TheConstants.{MAX_MESSAGE_LENGTH};

use crate::uses::filters::filter;
use crate::uses::items::{configured, item, selection_of_p};
use crate::uses::without_memory::answered;
use anyhow::Result;
use publication::{MAX_MESSAGE_LENGTH, Selection};
use rowfilter::Truth;
use std::alloc::Global;

/// The body of an insert of (20,'ab',7) into public.item, as a log keeps it.
const BODY: &[u8] = b"\x01\0\0\x40\0\0\x03\x02\0\0\0\x14\x04\0\0\0\x02ab\x03\0\0\0\0\0\0\0\x07";

/// Where its record starts; an Insert doesn't tell of it.
const POSITION: u64 = 0;

/// Its Insert (PostgreSQL 15, 55.9).
const INSERT: &[u8] = b"I\0\0\x40\0N\0\x03t\0\0\0\x0220t\0\0\0\x02abt\0\0\0\x017";

pub fn judge(alloc: Global, is_called: bool) -> Result<()> {
    let row = item(alloc, 20, "even", 20)?;
    let filter = filter(alloc)?;
    let is_right = !is_called || filter.truth(&row) == Truth::True;
    answered(is_right, "a filter answers otherwise")
}

pub fn put(alloc: Global, is_called: bool) -> Result<()> {
    let mut out = Vec::from_elem(alloc, 0, MAX_MESSAGE_LENGTH)?;
    let selection = selection(alloc)?;
    let is_right = !is_called || is_put(&selection, out.as_mut_slice());
    answered(is_right, "a selection puts otherwise")
}

fn selection(alloc: Global) -> Result<Selection> {
    selection_of_p(alloc, &configured(alloc)?)
}

fn is_put(selection: &Selection, out: &mut [u8]) -> bool
    requires { MAX_MESSAGE_LENGTH ≤ length out.old }
{
    match selection.put(POSITION, BODY, out) {
        Some(length) => out.get(..length) == Some(INSERT),
        None => false,
    }
}
