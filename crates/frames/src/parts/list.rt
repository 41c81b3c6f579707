//! Lists in bodies: what an item must tell to be passed over, read and written in one. A list is passed over whole before
//! it is read, so that a fault of its shape is found before one of its texts, and both before memory is taken.

ghost use Rattle.std.specs.Prelude.{◌≡◌, ◌^◌, ◌<◌, ◌++◌, length, is_none, Err, IsOk};
ghost use Rattle.std.specs.List.{list_all, flat_map, AllByRecursion};
ghost use Rattle.pqformat.specs.Steps.{repeat_at, next_at, until_at, closed_list};
ghost use Rattle.frames.specs.Plain.{counted_at, counted_items};
ghost use Rattle.pqformat.specs.Putting.{Puts};
ghost use Rattle.frames.specs.Body.{ReadsAt, GivesAt, checked_at, passed_part, whole};
ghost use Rattle.frames.specs.Frame.{Gives};

use crate::fault::FrameFault;
use crate::parts::body::end_of;
use crate::parts::field::int16;
use bytes::BytesMut;
use pqformat::{Cursor, Items, put_byte, put_int16};
use std::alloc::{AllocError, Global};

/// What stands in a list, as it is read.
pub(crate) trait Field: Sized {
    ghost use Rattle.std.specs.Prelude.{List, ℕ, Bool, Result};

    ghost field_at: { List ℕ → Result (Self × List ℕ) (Unit {0}) };

    ghost is_text: { Self → Bool };

    /// Moves past one, and tells whether its texts are UTF-8.
    fn pass(cursor: &mut Cursor<'_>) -> Result<bool, FrameFault>
        ensures { ReadsAt result cursor.new (passed_part is_text (field_at cursor.old)) };

    fn read(alloc: Global, cursor: &mut Cursor<'_>) -> Result<Self, FrameFault>
        ensures { GivesAt result cursor.new (checked_at is_text (field_at cursor.old)) };
}

/// As many as the count says.
fn items_of<T: Field + Drop>(
    alloc: Global,
    cursor: &mut Cursor<'_>,
    count: usize,
) -> Result<Items<T>, FrameFault>
    ensures { GivesAt result cursor.new
        (repeat_at (λ bytes. checked_at T.is_text (T.field_at bytes)) count cursor.old) }
{
    let mut items = Vec::new(alloc);
    for _ in 0..count {
        let item = T::read(alloc, cursor)?;
        items.push(item)?;
    }
    Ok(Items::new(items))
}

/// Moves past one more, or past the zero byte that ends them, which it answers.
#[tactic(auto, unfolding(pqformat::specs::Steps::next_at))]
fn pass_next<T: Field>(cursor: &mut Cursor<'_>) -> Result<bool, FrameFault>
    ensures { ReadsAt result cursor.new (passed_part is_none (next_at tt T.field_at cursor.old)) }
{
    match cursor.rest().first() {
        None => Err(FrameFault::BadBody),
        Some(0) => {
            let _zero = cursor.u8();
            Ok(true)
        }
        Some(_) => {
            T::pass(cursor)?;
            Ok(false)
        }
    }
}

/// How many stand before the zero byte that ends them; moves past it.
fn count_of<T: Field>(cursor: &mut Cursor<'_>, limit: usize) -> Result<usize, FrameFault>
    ensures { ReadsAt result cursor.new
        (passed_part length (until_at tt T.field_at limit cursor.old)) }
{
    for count in 0..limit {
        if pass_next::<T>(cursor)? {
            return Ok(count);
        }
    }
    Err(FrameFault::BadBody)
}

/// The items of a body, up to the zero byte that ends both.
pub(crate) fn listed<T: Field + Drop>(alloc: Global, body: &[u8]) -> Result<Items<T>, FrameFault>
    ensures exact { Gives result
        (whole (list_all T.is_text) (until_at tt T.field_at (length body.now) body.now)) }
    ensures memory { result ≡ Err FrameFault.Memory →
        IsOk (whole (list_all T.is_text) (until_at tt T.field_at (length body.now) body.now)) }
{
    let mut cursor = Cursor::new(body);
    let count = count_of::<T>(&mut cursor, body.len())?;
    end_of(&cursor)?;
    let are_texts = pass_items::<T>(&mut Cursor::new(body), count)?;
    if !are_texts {
        return Err(FrameFault::NotUtf8);
    }
    items_of(alloc, &mut Cursor::new(body), count)
}

/// Moves past as many as the count says, and tells whether all their texts are UTF-8.
fn pass_items<T: Field>(cursor: &mut Cursor<'_>, count: usize) -> Result<bool, FrameFault>
    ensures { ReadsAt result cursor.new
        (passed_part (list_all T.is_text) (repeat_at T.field_at count cursor.old)) }
{
    let mut are_texts = true;
    for _ in 0..count {
        are_texts &= T::pass(cursor)?;
    }
    Ok(are_texts)
}

/// A count, and that many items, with which the body ends.
pub(crate) fn counted_of<T: Field + Drop>(
    alloc: Global,
    cursor: &mut Cursor<'_>,
) -> Result<Items<T>, FrameFault>
    ensures exact { Gives result (whole (list_all T.is_text) (counted_at T.field_at cursor.old)) }
    ensures memory { result ≡ Err FrameFault.Memory →
        IsOk (whole (list_all T.is_text) (counted_at T.field_at cursor.old)) }
{
    let count = int16(cursor)?;
    if count >= 1 << 15 {
        return Err(FrameFault::BadBody);
    }
    ending_of(alloc, cursor.rest(), count as usize)
}

fn ending_of<T: Field + Drop>(
    alloc: Global,
    bytes: &[u8],
    count: usize,
) -> Result<Items<T>, FrameFault>
    ensures exact { Gives result
        (whole (list_all T.is_text) (repeat_at T.field_at count bytes.now)) }
    ensures memory { result ≡ Err FrameFault.Memory →
        IsOk (whole (list_all T.is_text) (repeat_at T.field_at count bytes.now)) }
{
    let mut cursor = Cursor::new(bytes);
    let are_texts = pass_items::<T>(&mut cursor, count)?;
    end_of(&cursor)?;
    if !are_texts {
        return Err(FrameFault::NotUtf8);
    }
    items_of(alloc, &mut Cursor::new(bytes), count)
}

/// What stands in a list, as it is written.
pub(crate) trait Put {
    ghost use Rattle.std.specs.Prelude.{List, ℕ};

    ghost spelled: { Self → List ℕ };

    ghost is_short: { Self → Type 0 };

    fn len(&self) -> usize
        requires { length (spelled self.now) < 2 ^ 32 }
        ensures { result ≡ length (spelled self.now) };

    fn put(&self, out: &mut BytesMut) -> Result<(), AllocError>
        requires { is_short self.now }
        ensures { Puts result out.old.items out.new.items (spelled self.now) };
}

/// How many bytes the items take.
pub(crate) fn items_len<T: Put>(items: &[T]) -> usize
    requires { length (flat_map T.spelled items.now) < 2 ^ 32 }
    ensures { result ≡ length (flat_map T.spelled items.now) }
{
    let mut total = 0;
    for item in items {
        total += item.len();
    }
    total
}

#[tactic(auto, using(pqformat::proofs::Putting::in_place))]
fn put_items<T: Put>(out: &mut BytesMut, items: &[T]) -> Result<(), AllocError>
    requires { AllByRecursion T.is_short items.now }
    ensures { Puts result out.old.items out.new.items (flat_map T.spelled items.now) }
{
    for item in items {
        item.put(out)?;
    }
    Ok(())
}

/// The count of the items, and each item.
#[tactic(auto, using(pqformat::proofs::Putting::in_place))]
pub(crate) fn put_counted<T: Put>(out: &mut BytesMut, items: &[T]) -> Result<(), AllocError>
    requires count { length items.now < 2 ^ 15 }
    requires each { AllByRecursion T.is_short items.now }
    ensures { Puts result out.old.items out.new.items (counted_items T.spelled items.now) }
{
    put_int16(out, items.len() as u16)?;
    put_items(out, items)
}

/// Each item, and the zero byte that ends them.
#[tactic(auto, using(pqformat::proofs::Putting::in_place))]
pub(crate) fn put_closed<T: Put>(out: &mut BytesMut, items: &[T]) -> Result<(), AllocError>
    requires { AllByRecursion T.is_short items.now }
    ensures { Puts result out.old.items out.new.items (closed_list T.spelled items.now) }
{
    put_items(out, items)?;
    put_byte(out, 0)
}
