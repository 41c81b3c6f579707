//! The Relation of a table, written where it is sent from.
#![tactic(auto, using(row_messages::proofs::Written::sizes))]

ghost use Rattle.std.specs.Prelude.{◌≡◌, ◌≤◌, length};
ghost use Rattle.std.specs.Option.{option_map};
ghost use Rattle.pgoutput.specs.declared.logical.Logical.TheVariants as logical;
ghost use Rattle.row_messages.specs.Relations.{relation_of};
ghost use Rattle.row_messages.specs.Spelling.{IsPut};
ghost use Rattle.publication.specs.Selection.{selected_table};

use crate::selection::Selection;
use row_messages::{MAX_MESSAGE_LENGTH, put_table};

impl Selection {
    /// Writes the Relation of the table of this OID to the front of `out`, and answers how long it is. None for a table that the
    /// selection doesn't have. It takes no memory.
    pub fn put_relation(&self, oid: u32, out: &mut [u8]) -> Option<usize>
        requires { MAX_MESSAGE_LENGTH ≤ length out.old }
        ensures message { IsPut result out.new
            (option_map (λ t. logical.Relation (relation_of t)) (selected_table self.now oid)) }
        ensures same { length out.new ≡ length out.old }
    {
        let table = self.table(oid)?;
        let listed = self.listed(oid);
        Some(put_table(&mut out[..MAX_MESSAGE_LENGTH], table, listed))
    }
}
