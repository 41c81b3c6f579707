//! The message that a change becomes, and the Relation of a table, as values: what is put, read again.

ghost use Rattle.std.specs.Prelude.{◌≡◌, ◌≤◌, ◌<◌, ◌^◌, ℕ, IfOk, IfSome, None, false, length, nat_le, option_map, true};
ghost use Rattle.pgoutput.specs.declared.logical.Logical.{Logical as Told};
ghost use Rattle.pgoutput.specs.declared.logical.Logical.TheVariants as logical;
ghost use Rattle.pgoutput.specs.Items.{IsShortMessage};
ghost use Rattle.pgoutput.specs.Logical.{FitsLogical, SpellsLogical};
ghost use Rattle.tables.specs.Reading.{IsCoded, IsCodedOids, SpellsBody};
ghost use Rattle.tables.specs.Spelling.{IsShort, row_length};
ghost use Rattle.tables.specs.declared.changes.change.Change.{Change as Changed};
ghost use Rattle.tables.specs.declared.changes.change_body.TheConstants.{MAX_TRUNCATED};
ghost use Rattle.tables.specs.declared.rows.row.TheConstants.{MAX_ROW_LENGTH};
ghost use Rattle.publication_config.specs.Published.{PublicationSet};
ghost use Rattle.row_messages.specs.Relations.{relation_of};
ghost use Rattle.row_messages.specs.Spelling.{room_for};
ghost use Rattle.publication.specs.Logged.{change_message};
ghost use Rattle.publication.specs.Projection.{FitsProjected, projection_of};
ghost use Rattle.publication.specs.Read.{IsShortRow};
ghost use Rattle.publication.specs.Selection.{selected_table};

use crate::selection::Selection;
use crate::writing::logged::fits_log;
use bytes::BytesMut;
use pgoutput::{Logical, read_logical};
use row_messages::{MAX_MESSAGE_LENGTH, room_for};
use std::alloc::{AllocError, Global};
use tables::{Change, MAX_TRUNCATED, MessageRef, Row, body_len, write_body};

/// What a change becomes: nothing, where it isn't published, or one message.
#[derive(Debug, Drop)]
pub enum Projected {
    Nothing,
    Message(Logical),
}

impl Selection {
    /// The message of a change whose record starts at the position, or `Nothing` where it isn't published. `AllocError` where
    /// memory is refused.
    pub fn project(&self, position: u64, change: &Change) -> Result<Projected, AllocError>
        ensures value { IfOk result
            (λ p. p ≡ projection_of (change_message self.now position change.now)) }
        ensures fits { IfOk result (FitsProjected self.now) }
    {
        if !is_short(change) {
            return Ok(Projected::Nothing);
        }
        let mut body = BytesMut::with_capacity(self.alloc, body_len(change))?;
        write_body(change, &mut body)?;
        self.project_body(position, body.as_slice())
    }

    /// The message of the change whose body these bytes are.
    fn project_body(&self, position: u64, body: &[u8]) -> Result<Projected, AllocError>
        ensures { (c : Changed) → SpellsBody body.now c →
            IfOk result (λ p. (p ≡ projection_of (change_message self.now position c))
            × FitsProjected self.now p) }
    {
        let mut out = Vec::from_elem(self.alloc, 0, room_for(body.len()))?;
        self.project_in(position, body, out.as_mut_slice())
    }

    /// The same, with room for the message.
    fn project_in(
        &self,
        position: u64,
        body: &[u8],
        out: &mut [u8],
    ) -> Result<Projected, AllocError>
        requires { room_for (length body.now) ≤ length out.old }
        ensures { (c : Changed) → SpellsBody body.now c →
            IfOk result (λ p. (p ≡ projection_of (change_message self.now position c))
            × FitsProjected self.now p) }
    {
        match self.put(position, body, out) {
            Some(len) => Ok(Projected::Message(message_in(self.alloc, &out[..len])?)),
            None => Ok(Projected::Nothing),
        }
    }

    /// The Relation of a table; None for one outside the selection. `AllocError` where memory is refused.
    pub fn relation(&self, oid: u32) -> Result<Option<Logical>, AllocError>
        ensures value { IfOk result
            (λ o. o
            ≡ option_map (λ table. logical.Relation (relation_of table))
            (selected_table self.now oid)) }
        ensures fits { IfOk result (λ o. IfSome o (λ m. FitsLogical m × IsShortMessage m)) }
    {
        // All tables fit: here the prover learns it.
        let _ = &self.tables;
        let mut out = [0; MAX_MESSAGE_LENGTH];
        match self.put_relation(oid, &mut out) {
            Some(len) => Ok(Some(message_in(self.alloc, &out[..len])?)),
            None => Ok(None),
        }
    }
}

/// The message that these bytes spell.
fn message_in(alloc: Global, bytes: &[u8]) -> Result<Logical, AllocError>
    ensures { (m : Told) → SpellsLogical bytes.now m → IfOk result (λ read. read ≡ m) }
{
    read_logical(alloc, bytes).map_err(|_| AllocError)
}

/// Whether the log can hold the change. One that it can't hold has no message.
fn is_short(change: &Change) -> bool
    ensures short { result ≡ true → IsShort change.now }
    ensures coded { result ≡ true → IsCoded change.now }
    ensures long { result ≡ false → (s : PublicationSet) (position : ℕ) →
        change_message s position change.now ≡ None }
{
    match change {
        Change::Insert(oid, row) => is_short_row(*oid, row),
        Change::Update(oid, old, new) => is_short_row(*oid, old) && is_short_row(*oid, new),
        Change::Delete(oid, old) => is_short_row(*oid, old),
        Change::Truncate(oids) => are_few(oids.as_slice()),
        Change::Message(message) => fits_log(MessageRef {
            prefix: message.prefix.as_str(),
            content: message.content.as_slice(),
        }),
    }
}

// The OID fits 32 bits: here the prover learns it.
fn is_short_row(_oid: u32, row: &Row) -> bool
    ensures number { _oid < 2 ^ 32 }
    ensures short { result ≡ true → IsShortRow row.now }
    ensures long { result ≡ false → MAX_ROW_LENGTH < row_length row.now }
{
    row.coded_len().is_some()
}

fn are_few(oids: &[u32]) -> bool
    ensures value { result ≡ nat_le (length oids.now) MAX_TRUNCATED }
    ensures coded { result ≡ true → IsCodedOids oids.now }
{
    oids.len() <= MAX_TRUNCATED
}
