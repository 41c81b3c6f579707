//! How a change lies in the arena.

ghost use Rattle.std.specs.Prelude.{◌≡◌, ◌+◌, ◌≤◌, ◌<◌, ◌^◌, OnOk, length};
ghost use Rattle.tables.specs.Reading.{IsCoded};
ghost use Rattle.tables.specs.Spelling.{IsShort, body_length};
ghost use Rattle.reorder.specs.Entries.{IsEntry, body_in, coded_entry, position_in};

use bytes::{BufMut, BytesMut};
use std::alloc::AllocError;
use wal::LoggedChange;

/// How many bytes the position has that an entry begins with.
const POSITION_LENGTH: usize = 8;

/// How long the entry of a change is.
pub(crate) fn entry_len(change: &LoggedChange) -> usize
    ensures value { result ≡ 8 + body_length change.now }
    ensures fits { result ≤ 16380 }
{
    POSITION_LENGTH + change.body_len()
}

/// Writes the entry of a change at a position into a buffer, in the place of what it holds.
#[tactic(auto, unfolding(pqformat::specs::Fields::int64))]
pub(crate) fn write_entry(
    out: &mut BytesMut,
    position: u64,
    change: &LoggedChange,
) -> Result<(), AllocError>
    ensures text { OnOk result (out.new.items ≡ coded_entry position change.now) }
    ensures entry { OnOk result (IsEntry out.new.items) }
    ensures fits { OnOk result (length out.new.items ≤ 16380) }
    ensures in_range { position < 2 ^ 64 }
    ensures coded { IsCoded change.now }
{
    let body = change.body();
    out.clear();
    out.put_u64(position)?;
    out.extend_from_slice(body)?;
    Ok(())
}

/// The position in an entry.
#[tactic(auto, using(crate::proofs::Coding::long_entry))]
pub(crate) fn position_of(entry: &[u8]) -> u64
    requires { IsEntry entry.now }
    ensures { result ≡ position_in entry.now }
{
    let (head, _) = entry.split_at(POSITION_LENGTH);
    u64::from_be_bytes([
        head[0], head[1], head[2], head[3], head[4], head[5], head[6], head[7],
    ])
}

/// The body of the change in an entry.
#[tactic(auto, using(crate::proofs::Coding::long_entry))]
pub(crate) fn body_of(entry: &[u8]) -> &[u8]
    requires { IsEntry entry.now }
    ensures { result.now ≡ body_in entry.now }
{
    let (_, body) = entry.split_at(POSITION_LENGTH);
    body
}
