//! What is refused of a slot or of a publication, by its name.

ghost use Rattle.std.specs.Prelude.{◌≡◌, ◌≤◌, length, option_copied, string_bytes, IfOk};
ghost use Rattle.pqformat.specs.Putting.{Puts};
ghost use Rattle.replcmd.specs.Position.{position_text};
ghost use Rattle.server.specs.Refusals.{ahead_text, backend_text, lost_text, named_publication, named_slot, only_name, owner_text, publication_text, slot_text, start_text};
ghost use Rattle.server.specs.Said.{slot_refused, start_refused};

use crate::backend_fault::{BackendFault, StartAhead};
use crate::refusal::Refusal;
use crate::said::say::{say_error, say_ready};
use bytes::BytesMut;
use pqformat::Text;
use replcmd::write_position;
use std::alloc::{AllocError, Global};

/// The most bytes of a name that is repeated: PostgreSQL has no longer ones (PostgreSQL 15, 4.1.1).
pub(crate) const MOST_NAME_BYTES: usize = 63;

/// That what was asked of this slot is refused, and that the next command is waited for.
#[tactic(auto, using(pqformat::proofs::Putting::in_place), unfolding(crate::specs::Said::slot_refused))]
pub(crate) fn say_slot_refused(
    alloc: Global,
    out: &mut BytesMut,
    fault: BackendFault,
    slot: &str,
) -> Result<(), AllocError>
    ensures { Puts result out.old.items out.new.items (slot_refused fault slot.now) }
{
    let text = slot_text(alloc, fault, slot)?;
    let (code, _plain) = Refusal::Asked(fault).told();
    say_error(alloc, out, code, text.as_str())?;
    say_ready(out)
}

/// That no stream begins from this slot and of these publications, and that the next command is waited for.
#[tactic(auto, using(pqformat::proofs::Putting::in_place), unfolding(crate::specs::Said::start_refused))]
pub(crate) fn say_start_refused(
    alloc: Global,
    out: &mut BytesMut,
    fault: BackendFault,
    slot: &str,
    publications: &[Text],
) -> Result<(), AllocError>
    ensures { Puts result out.old.items out.new.items
        (start_refused fault slot.now publications.now) }
{
    let text = start_text(alloc, fault, slot, publications)?;
    let (code, _plain) = Refusal::Asked(fault).told();
    say_error(alloc, out, code, text.as_str())?;
    say_ready(out)
}

fn start_text(
    alloc: Global,
    fault: BackendFault,
    slot: &str,
    publications: &[Text],
) -> Result<String, AllocError>
    ensures text { IfOk result
        (λ t. string_bytes t ≡ start_text fault slot.now publications.now) }
    ensures short { IfOk result (λ t. length (string_bytes t) ≤ 120) }
{
    match fault {
        BackendFault::UnknownPublication => publication_text(alloc, only_name(publications)),
        _ => slot_text(alloc, fault, slot),
    }
}

/// The name, where it is the only one.
fn only_name(names: &[Text]) -> Option<&str>
    ensures { option_copied result ≡ only_name names.now }
{
    match names.split_first() {
        Some((name, others)) if others.is_empty() => Some(name.as_str()),
        _ => None,
    }
}

fn publication_text(alloc: Global, name: Option<&str>) -> Result<String, AllocError>
    ensures text { IfOk result (λ t. string_bytes t ≡ publication_text (option_copied name.entry)) }
    ensures short { IfOk result (λ t. length (string_bytes t) ≤ 120) }
{
    match name {
        Some(name) if name.len() <= MOST_NAME_BYTES => named_publication(alloc, name),
        _ => plain(alloc, BackendFault::UnknownPublication),
    }
}

fn named_publication(alloc: Global, name: &str) -> Result<String, AllocError>
    ensures { IfOk result (λ t. string_bytes t ≡ named_publication name.now) }
{
    let mut text = String::from_str(alloc, "publication \"")?;
    text.push_str(name)?;
    text.push_str("\" does not exist")?;
    Ok(text)
}

/// The text of the fault. A name that no slot may have, since it is too long, isn't repeated.
fn slot_text(alloc: Global, fault: BackendFault, slot: &str) -> Result<String, AllocError>
    ensures text { IfOk result (λ t. string_bytes t ≡ slot_text fault slot.now) }
    ensures short { IfOk result (λ t. length (string_bytes t) ≤ 120) }
{
    match fault {
        BackendFault::SlotMissing if slot.len() <= MOST_NAME_BYTES => {
            named_slot(alloc, slot, "does not exist")
        }
        BackendFault::SlotInUse if slot.len() <= MOST_NAME_BYTES => {
            named_slot(alloc, slot, "is active")
        }
        BackendFault::SlotExists if slot.len() <= MOST_NAME_BYTES => {
            named_slot(alloc, slot, "already exists")
        }
        BackendFault::StartAhead(ahead) if slot.len() <= MOST_NAME_BYTES => start_ahead(
            alloc, ahead,
        ),
        BackendFault::SlotLost if slot.len() <= MOST_NAME_BYTES => lost_slot(alloc, slot),
        BackendFault::NotOwner if slot.len() <= MOST_NAME_BYTES => others_slot(alloc, slot),
        _ => plain(alloc, fault),
    }
}

/// The text without the name.
fn plain(alloc: Global, fault: BackendFault) -> Result<String, AllocError>
    ensures text { IfOk result (λ t. string_bytes t ≡ backend_text fault) }
    ensures short { IfOk result (λ t. length (string_bytes t) ≤ 80) }
{
    let (_code, text) = Refusal::Asked(fault).told();
    String::from_str(alloc, text)
}

fn start_ahead(alloc: Global, ahead: StartAhead) -> Result<String, AllocError>
    ensures text { IfOk result (λ t. string_bytes t ≡ ahead_text ahead) }
    ensures short { IfOk result (λ t. length (string_bytes t) ≤ 120) }
{
    let start = position(alloc, ahead.start)?;
    let reached = position(alloc, ahead.reached)?;
    let mut text = String::from_str(alloc, "start ")?;
    text.push_str(start.as_str())?;
    text.push_str(" is ahead of ")?;
    text.push_str(reached.as_str())?;
    text.push_str(", all that its slot has sent: the publisher began anew")?;
    Ok(text)
}

fn lost_slot(alloc: Global, slot: &str) -> Result<String, AllocError>
    ensures { IfOk result (λ t. string_bytes t ≡ lost_text slot.now) }
{
    let mut text = String::from_str(alloc, "can no longer get changes from replication slot \"")?;
    text.push_str(slot)?;
    text.push_str("\"")?;
    Ok(text)
}

fn others_slot(alloc: Global, slot: &str) -> Result<String, AllocError>
    ensures { IfOk result (λ t. string_bytes t ≡ owner_text slot.now) }
{
    let mut text = String::from_str(alloc, "must be owner of replication slot \"")?;
    text.push_str(slot)?;
    text.push_str("\"")?;
    Ok(text)
}

fn position(alloc: Global, position: u64) -> Result<String, AllocError>
    ensures text { IfOk result (λ t. string_bytes t ≡ position_text position) }
    ensures short { IfOk result (λ t. length (string_bytes t) ≤ 17) }
{
    write_position(alloc, position)
}

fn named_slot(alloc: Global, slot: &str, state: &str) -> Result<String, AllocError>
    ensures { IfOk result (λ t. string_bytes t ≡ named_slot slot.now state.now) }
{
    let mut text = String::from_str(alloc, "replication slot \"")?;
    text.push_str(slot)?;
    text.push_str("\" ")?;
    text.push_str(state)?;
    Ok(text)
}
