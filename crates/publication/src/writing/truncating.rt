//! The message of a truncate, written straight from the body that the log keeps.
#![tactic(auto, using(row_messages::proofs::Written::sizes))]

ghost use Rattle.std.specs.Prelude.{◌≡◌, ◌+◌, ◌*◌, ◌≤◌, ◌<◌, ◌^◌, [], ℕ, List, Ok, IfSome, false, filter, length, take};
ghost use Rattle.std.specs.List.{flat_map};
ghost use Rattle.pqformat.specs.Fields.{int32};
ghost use Rattle.pgoutput.specs.Logical.{spell_logical};
ghost use Rattle.pgoutput.specs.declared.logical.Logical.TheVariants as logical;
ghost use Rattle.tables.specs.Reading.{oids_at};
ghost use Rattle.tables.specs.declared.changes.change.Change.{Change as Changed};
ghost use Rattle.publication_config.specs.declared.operations.Operation.{Operation};
ghost use Rattle.publication.specs.Projection.{is_published, message};
ghost use Rattle.pqformat.specs.Writing.{FitsRoom, Writes};
ghost use Rattle.row_messages.specs.Spelling.{HasRoomFor, IsWritten};
ghost use Rattle.publication.specs.Read.{IsReadWhole};

use crate::selection::{Selection, may_be_emptied};
use pgoutput::{NO_OPTIONS, TRUNCATE};
use pqformat::{write_byte, write_int32};
use publication_config::Operation;
use tables::{MAX_TRUNCATED, lend_oids};

impl Selection {
    /// The message of a truncate, of which these are the count and the OIDs.
    // Its OIDs, 2,048 bytes, are on the stack for truncates alone.
    #[inline(never)]
    pub(crate) fn put_truncated(&self, fields: &[u8], out: &mut [u8]) -> Option<usize>
        requires { HasRoomFor (length fields.now + 1) out.old }
        ensures told { (oids : List ℕ) → oids_at fields.now ≡ Ok (oids, []) →
            IsWritten result out.old out.new (message self.now (Changed.Truncate oids)) }
        ensures found { IfSome result (λ _. IsReadWhole (oids_at fields.now)) }
        ensures same { length out.new ≡ length out.old }
    {
        let mut oids = [0; MAX_TRUNCATED];
        let count = lend_oids(fields, &mut oids)?;
        self.put_emptied(&oids[..count], out)
    }

    fn put_emptied(&self, oids: &[u32], out: &mut [u8]) -> Option<usize>
        requires { HasRoomFor 0 out.old }
        ensures told { IsWritten result out.old out.new
            (message self.now (Changed.Truncate oids.now)) }
        ensures same { length out.new ≡ length out.old }
    {
        if !may_be_emptied(self.tables.as_slice(), oids) {
            return None;
        }
        let mut kept = [0; MAX_TRUNCATED];
        let count = self.keep_published(oids, &mut kept);
        if count == 0 {
            return None;
        }
        Some(put_truncation(out, &kept[..count]))
    }

    /// The tables among these of which truncates are published, in this order, into the front of the room, and how many they are.
    fn keep_published(&self, oids: &[u32], kept: &mut [u32]) -> usize
        requires { length oids.now ≤ length kept.old }
        ensures value { take result kept.new
            ≡ filter (is_published self.now Operation.Truncate) oids.now }
        ensures within { result ≤ length oids.now }
        ensures same { length kept.new ≡ length kept.old }
    {
        let mut count = 0;
        for i in 0..oids.len() {
            if self.publishes(Operation::Truncate, oids[i]) {
                kept[count] = oids[i];
                count += 1;
            }
        }
        count
    }
}

/// The Truncate of these tables.
fn put_truncation(out: &mut [u8], oids: &[u32]) -> usize
    requires { FitsRoom 0 out.old
        (spell_logical
        (logical.Truncate
        (record {
          options = record { cascade = false; restart_identity = false };
          oids = oids.now;
        }))) }
    ensures { Writes 0 result out.old out.new
        (spell_logical
        (logical.Truncate
        (record {
          options = record { cascade = false; restart_identity = false };
          oids = oids.now;
        }))) }
{
    let kind = write_byte(out, 0, TRUNCATE);
    let counted = write_int32(out, kind, oids.len() as u32);
    let options = write_byte(out, counted, NO_OPTIONS);
    put_oids(out, options, oids)
}

fn put_oids(out: &mut [u8], at: usize, oids: &[u32]) -> usize
    requires { at + 4 * length oids.now ≤ length out.old }
    ensures { Writes at result out.old out.new (flat_map int32 oids.now) }
{
    let mut end = at;
    for i in 0..oids.len() {
        let oid = oids[i];
        end = write_int32(out, end, oid);
    }
    end
}
