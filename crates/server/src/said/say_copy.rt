//! What the server says of a copy.

ghost use Rattle.std.specs.Prelude.{◌≡◌, ◌≤◌, ◌++◌, length, codes, string_bytes, replicate, IfOk};
ghost use Rattle.std.specs.Fmt.{decimal};
ghost use Rattle.std.specs.List.{flat_map};
ghost use Rattle.frames.specs.declared.back.Back.TheVariants.{CopyDone, ReadyForQuery};
ghost use Rattle.frames.specs.declared.backend.ready_for_query.TransactionStatus.{TransactionStatus as BlockStatus};
ghost use Rattle.pqformat.specs.Fields.{int16};
ghost use Rattle.pqformat.specs.Putting.{Puts};
ghost use Rattle.server.specs.Copies.{copied_row, copy_begun, copy_ended, opening_said, refused_in_block};
ghost use Rattle.server.specs.RowText.{AreShortValues};
ghost use Rattle.server.specs.Said.{sent_frame};
ghost use Rattle.server.specs.declared.asked.copy_command.TheConstants.{MOST_COLUMNS};

use crate::backend_fault::BackendFault;
use crate::refusal::Refusal;
use crate::said::row_text::row_text;
use crate::said::say::{say, say_completed, say_refused};
use bytes::BytesMut;
use frames::{Back, CopyData, TransactionStatus};
use pqformat::{Items, Text, put_byte, put_int16, put_int32};
use std::alloc::{AllocError, Global};

/// The type byte of CopyOutResponse (PostgreSQL 15, 55.7).
///
/// ```text
/// Byte1('H') | Int32 length, itself counted | Int8 format | Int16 count | each: Int16 format
/// ```
pub const COPY_OUT_RESPONSE: u8 = b'H';

/// The format of each column: a text.
#[tactic(auto, using(pqformat::proofs::Putting::in_place, crate::proofs::RowTexts::formats_more))]
fn put_formats(out: &mut BytesMut, columns: &[Text]) -> Result<(), AllocError>
    ensures { Puts result out.old.items out.new.items
        (flat_map int16 (replicate (length columns.now) 0)) }
{
    for _ in columns {
        put_int16(out, 0)?;
    }
    Ok(())
}

/// That a copy of so many columns begins.
#[tactic(auto, using(pqformat::proofs::Putting::in_place), unfolding(crate::specs::Copies::copy_begun))]
fn say_copy_begun(out: &mut BytesMut, columns: &[Text]) -> Result<(), AllocError>
    requires { length columns.now ≤ MOST_COLUMNS }
    ensures { Puts result out.old.items out.new.items (copy_begun (length columns.now)) }
{
    let count = columns.len();
    put_byte(out, COPY_OUT_RESPONSE)?;
    put_int32(out, 7 + 2 * count as u32)?;
    put_byte(out, 0)?;
    put_int16(out, count as u16)?;
    put_formats(out, columns)
}

/// That a block failed, and that its end is waited for.
#[tactic(auto, using(pqformat::proofs::Putting::in_place), unfolding(pqformat::specs::Fields::int32))]
fn say_ready_failed(out: &mut BytesMut) -> Result<(), AllocError>
    ensures { Puts result out.old.items out.new.items
        (sent_frame (ReadyForQuery BlockStatus.Failed)) }
{
    say(out, Back::ReadyForQuery(TransactionStatus::Failed))
}

/// That a block's next query is waited for.
#[tactic(auto, using(pqformat::proofs::Putting::in_place), unfolding(pqformat::specs::Fields::int32))]
fn say_ready_in_block(out: &mut BytesMut) -> Result<(), AllocError>
    ensures { Puts result out.old.items out.new.items
        (sent_frame (ReadyForQuery BlockStatus.InTransaction)) }
{
    say(out, Back::ReadyForQuery(TransactionStatus::InTransaction))
}

/// That a block fails by what it refuses.
#[tactic(auto, using(pqformat::proofs::Putting::in_place), unfolding(crate::specs::Copies::refused_in_block))]
pub(crate) fn say_refused_in_block(
    alloc: Global,
    out: &mut BytesMut,
    refusal: Refusal,
) -> Result<(), AllocError>
    ensures { Puts result out.old.items out.new.items (refused_in_block refusal) }
{
    say_refused(alloc, out, refusal)?;
    say_ready_failed(out)
}

/// Whether a copy begins of these columns.
#[tactic(auto, using(pqformat::proofs::Putting::in_place))]
pub(crate) fn say_opened(
    alloc: Global,
    out: &mut BytesMut,
    columns: &[Text],
    answer: Result<(), BackendFault>,
) -> Result<(), AllocError>
    requires { length columns.now ≤ MOST_COLUMNS }
    ensures { Puts result out.old.items out.new.items (opening_said (length columns.now) answer) }
{
    match answer {
        Ok(()) => say_copy_begun(out, columns),
        Err(fault) => say_refused_in_block(alloc, out, Refusal::Asked(fault)),
    }
}

/// A row of a copy.
#[tactic(auto, using(pqformat::proofs::Putting::in_place), unfolding(crate::specs::Copies::copied_row))]
pub(crate) fn say_row(
    alloc: Global,
    out: &mut BytesMut,
    values: &[Option<Text>],
) -> Result<(), AllocError>
    requires { AreShortValues values.now }
    ensures { Puts result out.old.items out.new.items (copied_row values.now) }
{
    let bytes = Items::new(row_text(alloc, values)?);
    say(out, Back::CopyData(CopyData { bytes }))
}

#[tactic(auto, using(pqformat::proofs::Putting::in_place), unfolding(pqformat::specs::Fields::int32))]
fn say_copy_done(out: &mut BytesMut) -> Result<(), AllocError>
    ensures { Puts result out.old.items out.new.items (sent_frame CopyDone) }
{
    say(out, Back::CopyDone)
}

fn copied_tag(alloc: Global, count: u64) -> Result<String, AllocError>
    ensures { IfOk result (λ s. string_bytes s ≡ codes "COPY " ++ decimal count) }
{
    format!(in alloc; "COPY {count}")
}

/// The end of a copy of so many rows.
#[tactic(auto, using(pqformat::proofs::Putting::in_place), unfolding(crate::specs::Copies::copy_ended))]
pub(crate) fn say_copy_ended(
    alloc: Global,
    out: &mut BytesMut,
    count: u64,
) -> Result<(), AllocError>
    ensures { Puts result out.old.items out.new.items (copy_ended count) }
{
    say_copy_done(out)?;
    let tag = copied_tag(alloc, count)?;
    say_completed(alloc, out, tag.as_str())?;
    say_ready_in_block(out)
}
