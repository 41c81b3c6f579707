//! How a row is read from the body of a change without a copy.

ghost use Rattle.std.specs.Prelude.{[], ◌≡◌, ◌<◌, ◌≤◌, ℕ, List, IfErr, IfNone, IfOk, IfSome, IsErr, OnErr, OnOk, Ok, Err, length, map, take};
ghost use Rattle.pqformat.specs.Steps.{repeat_at};
ghost use Rattle.tables.specs.Kinds.{value_at, value_of};
ghost use Rattle.tables.specs.Reading.{oid_at, oids_at};

use crate::fault::BodyFault;
use crate::kinds::{ValueRef, lend_value};
use pqformat::Cursor;

/// So many values, into the front of the room.
pub(crate) fn lend_values<'a>(
    cursor: &mut Cursor<'a>,
    room: &mut [ValueRef<'a>],
    count: usize,
) -> Result<(), BodyFault>
    requires { count ≤ length room.old }
    ensures found { OnOk result
        (repeat_at value_at count cursor.old
        ≡ Ok (map value_of (take count room.new), cursor.new)) }
    ensures none { OnErr result (IsErr (repeat_at value_at count cursor.old)) }
    ensures same { length room.new ≡ length room.old }
{
    for i in 0..count {
        room[i] = lend_value(cursor)?;
    }
    Ok(())
}

/// The OIDs of a truncate, of which nothing follows, into the front of the room, and how many they are. None where no such are spelled
/// there, or more than there is room for.
#[tactic(auto, unfolding(crate::specs::Reading::oids_at))]
pub fn lend_oids(bytes: &[u8], room: &mut [u32]) -> Option<usize>
    ensures found { IfSome result (λ n. oids_at bytes.now ≡ Ok (take n room.new, [])) }
    ensures within { IfSome result (λ n. n ≤ length room.new) }
    ensures none { IfNone result
        ((oids : List ℕ) → oids_at bytes.now ≡ Ok (oids, []) → length room.old < length oids) }
{
    let mut cursor = Cursor::new(bytes);
    let count = usize::from(cursor.u16()?);
    if count > room.len() {
        return None;
    }
    let Ok(()) = lend_each(&mut cursor, room, count) else {
        return None;
    };
    if !cursor.rest().is_empty() {
        return None;
    }
    Some(count)
}

fn lend_each(cursor: &mut Cursor<'_>, room: &mut [u32], count: usize) -> Result<(), BodyFault>
    requires { count ≤ length room.old }
    ensures found { OnOk result
        (repeat_at oid_at count cursor.old ≡ Ok (take count room.new, cursor.new)) }
    ensures none { OnErr result (IsErr (repeat_at oid_at count cursor.old)) }
    ensures same { length room.new ≡ length room.old }
{
    for i in 0..count {
        room[i] = oid_in(cursor)?;
    }
    Ok(())
}

fn oid_in(cursor: &mut Cursor<'_>) -> Result<u32, BodyFault>
    ensures found { IfOk result (λ oid. oid_at cursor.old ≡ Ok (oid, cursor.new)) }
    ensures fails { IfErr result (λ fault. oid_at cursor.old ≡ Err fault) }
{
    cursor.u32().ok_or(BodyFault::Short)
}
