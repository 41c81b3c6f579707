//! The law of messages: they change no row.

ghost use Rattle.std.specs.Prelude.{◌≡◌, ℕ, List, true};
ghost use Rattle.txlog.specs.Invariants.{IsPublisher};
ghost use Rattle.txlog.specs.Publishing.{PublisherState, after_change, after_note, is_live, message_with};
ghost use Rattle.txlog.specs.Rows.{rows_of};

/// What stands in the tables is the same after a message, in a transaction or outside of all.
pub fn a_message_changes_no_row()
    ensures message { (s : PublisherState) (xid : ℕ) (prefix content : List ℕ) → IsPublisher s →
        is_live xid s.live ≡ true →
        rows_of s.tables (after_change xid (message_with prefix content) s).log
        ≡ rows_of s.tables s.log }
    ensures note { (s : PublisherState) (prefix content : List ℕ) →
        rows_of s.tables (after_note prefix content s).log ≡ rows_of s.tables s.log }
{}
