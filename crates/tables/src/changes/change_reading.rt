//! How a change is read from its body.

ghost use Rattle.std.specs.Prelude.{◌≡◌, ◌≢◌, ◌<◌, [], IfOk, IsOk, Ok, Err};
ghost use Rattle.pqformat.specs.Steps.{repeat_at};
ghost use Rattle.tables.specs.declared.fault.BodyFault.TheVariants.{Memory};
ghost use Rattle.tables.specs.Reading.{ChangeHasPart, Gives, HoldsPart, InsertHasValue, KindHasPart, OidsHaveOne, SpellsBody, UpdateHasValue, change_tagged, insert_at, message_at, oid_at, oids_at, body_at, change_at, update_at};
ghost use Rattle.tables.specs.declared.changes.change.Change.{Change as Changed};

use crate::changes::change::Change;
use crate::changes::change_body::{DELETE_TAG, INSERT_TAG, MESSAGE_TAG, TRUNCATE_TAG, UPDATE_TAG};
use crate::changes::message::{Message, message_in};
use crate::fault::BodyFault;
use crate::rows::row::Row;
use crate::rows::row_reading::row_of;
use pqformat::{Cursor, Items};
use std::alloc::Global;

/// The change whose body these bytes are. The leftmost fault is answered: `Short` where the bytes end too early, `UnknownTag`
/// at a tag that no change and no value has, `BadBool` at a bool that is neither 0 nor 1, `BadText` at a text that isn't UTF-8,
/// `Trailing` at bytes after the body. Or `Memory`, where memory is refused before it, which can only be where there is
/// something to keep.
pub fn read_body(alloc: Global, bytes: &[u8]) -> Result<Change, BodyFault>
    ensures found { IfOk result (λ c. SpellsBody bytes.now c) }
    ensures only { (c : Changed) → SpellsBody bytes.now c → Gives result [] (Ok (c, [])) }
    ensures exact { Gives result [] (body_at bytes.now) }
    ensures memory { result ≡ Err Memory → HoldsPart bytes.now }
{
    whole(alloc, bytes)
}

#[tactic(auto, unfolding(crate::specs::Reading::body_at))]
fn whole(alloc: Global, bytes: &[u8]) -> Result<Change, BodyFault>
    ensures exact { Gives result [] (body_at bytes.now) }
    ensures memory { result ≡ Err Memory → ChangeHasPart bytes.now }
{
    let mut cursor = Cursor::new(bytes);
    let change = change_of(alloc, &mut cursor)?;
    if cursor.rest().is_empty() {
        Ok(change)
    } else {
        Err(BodyFault::Trailing)
    }
}

#[tactic(auto, unfolding(crate::specs::Reading::change_at))]
fn change_of(alloc: Global, cursor: &mut Cursor<'_>) -> Result<Change, BodyFault>
    ensures exact { Gives result cursor.new (change_at cursor.old) }
    ensures memory { result ≡ Err Memory → ChangeHasPart cursor.old }
{
    let tag = cursor.u8().ok_or(BodyFault::Short)?;
    kind_of(alloc, tag, cursor)
}

fn kind_of(alloc: Global, tag: u8, cursor: &mut Cursor<'_>) -> Result<Change, BodyFault>
    ensures exact { Gives result cursor.new (change_tagged tag cursor.old) }
    ensures memory { result ≡ Err Memory → KindHasPart tag cursor.old }
{
    match tag {
        INSERT_TAG => {
            let (oid, row) = one_row_of(alloc, cursor)?;
            Ok(Change::Insert(oid, row))
        }
        UPDATE_TAG => {
            let ((oid, old), row) = two_rows_of(alloc, cursor)?;
            Ok(Change::Update(oid, old, row))
        }
        DELETE_TAG => {
            let (oid, old) = one_row_of(alloc, cursor)?;
            Ok(Change::Delete(oid, old))
        }
        TRUNCATE_TAG => Ok(Change::Truncate(oids_of(alloc, cursor)?)),
        MESSAGE_TAG => Ok(Change::Message(message_from(alloc, cursor)?)),
        _ => Err(BodyFault::UnknownTag),
    }
}

/// A table's OID and a row of it.
#[tactic(auto, unfolding(crate::specs::Reading::insert_at))]
fn one_row_of(alloc: Global, cursor: &mut Cursor<'_>) -> Result<(u32, Row), BodyFault>
    ensures exact { Gives result cursor.new (insert_at cursor.old) }
    ensures memory { result ≡ Err Memory → InsertHasValue cursor.old }
{
    let oid = cursor.u32().ok_or(BodyFault::Short)?;
    let row = row_of(alloc, cursor)?;
    Ok((oid, row))
}

/// A table's OID, a row of it and another one.
#[tactic(auto, unfolding(crate::specs::Reading::update_at))]
fn two_rows_of(alloc: Global, cursor: &mut Cursor<'_>) -> Result<((u32, Row), Row), BodyFault>
    ensures exact { Gives result cursor.new (update_at cursor.old) }
    ensures memory { result ≡ Err Memory → UpdateHasValue cursor.old }
{
    let first = one_row_of(alloc, cursor)?;
    let row = row_of(alloc, cursor)?;
    Ok((first, row))
}

#[tactic(auto, unfolding(crate::specs::Reading::oids_at))]
fn oids_of(alloc: Global, cursor: &mut Cursor<'_>) -> Result<Items<u32>, BodyFault>
    ensures exact { Gives result cursor.new (oids_at cursor.old) }
    ensures memory { result ≡ Err Memory → OidsHaveOne cursor.old }
{
    let count = cursor.u16().ok_or(BodyFault::Short)?;
    counted(alloc, cursor, count)
}

fn counted(alloc: Global, cursor: &mut Cursor<'_>, count: u16) -> Result<Items<u32>, BodyFault>
    ensures exact { Gives result cursor.new (repeat_at oid_at count cursor.old) }
    ensures memory { result ≡ Err Memory → (0 < count) × IsOk (oid_at cursor.old) }
{
    let mut oids = Vec::new(alloc);
    for _ in 0..count {
        let oid = oid_of(cursor)?;
        oids.push(oid)?;
    }
    Ok(Items::new(oids))
}

fn oid_of(cursor: &mut Cursor<'_>) -> Result<u32, BodyFault>
    ensures exact { Gives result cursor.new (oid_at cursor.old) }
    ensures no_memory { result ≢ Err Memory }
{
    let oid = cursor.u32().ok_or(BodyFault::Short)?;
    Ok(oid)
}

fn message_from(alloc: Global, cursor: &mut Cursor<'_>) -> Result<Message, BodyFault>
    ensures exact { Gives result cursor.new (message_at cursor.old) }
    ensures memory { result ≡ Err Memory → IsOk (message_at cursor.old) }
{
    let message = message_in(cursor)?;
    Ok(Message::copy_of(alloc, message.prefix, message.content)?)
}
