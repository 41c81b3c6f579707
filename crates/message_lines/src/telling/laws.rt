//! What holds of every line.

ghost use Rattle.std.specs.Prelude.{◌≡◌, ◌<◌, ◌^◌, ℕ, Some, None, true, false, FitsSigned};
ghost use Rattle.std.specs.Int.{w64};
ghost use Rattle.pgoutput.specs.declared.messages.begin.Begin.{Begin};
ghost use Rattle.pgoutput.specs.declared.messages.commit.Commit.{Commit};
ghost use Rattle.pgoutput.specs.declared.messages.delete.Delete.{Delete};
ghost use Rattle.pgoutput.specs.declared.messages.insert.Insert.{Insert};
ghost use Rattle.pgoutput.specs.declared.messages.message.Message.{Message};
ghost use Rattle.pgoutput.specs.declared.messages.relation.Relation.{Relation};
ghost use Rattle.pgoutput.specs.declared.messages.update.Update.{Update};
ghost use Rattle.json.specs.Json.{document};
ghost use Rattle.message_lines.specs.Fronts.{Tells};
ghost use Rattle.message_lines.specs.Line.{line_of, text_of};
ghost use Rattle.message_lines.specs.Rows.{AreKinds};
ghost use Rattle.message_lines.specs.Changes.{delete_json, insert_json, truncate_json, update_json};
ghost use Rattle.message_lines.specs.Marks.{begin_json, commit_json, message_json, summary_json};
ghost use Rattle.message_lines.specs.Ending.{behind, end_of};

/// Each line is JSON, and whoever reads it finds what was written there, whatever bytes the names and values are.
pub fn lines_tell_what_was_written()
    ensures begin { (m : Begin) → m.xid < 2 ^ 32 → FitsSigned w64 m.time →
        document (text_of (begin_json m)) ≡ Some (begin_json m) }
    ensures commit { (m : Commit) → FitsSigned w64 m.time →
        document (text_of (commit_json m)) ≡ Some (commit_json m) }
    ensures message { (m : Message) → document (text_of (message_json m)) ≡ Some (message_json m) }
    ensures insert { (lsn : ℕ) (r : Relation) (m : Insert) → AreKinds r.columns →
        document (text_of (insert_json lsn r m)) ≡ Some (insert_json lsn r m) }
    ensures update { (lsn : ℕ) (r : Relation) (m : Update) → AreKinds r.columns →
        document (text_of (update_json lsn r m)) ≡ Some (update_json lsn r m) }
    ensures delete { (lsn : ℕ) (r : Relation) (m : Delete) → AreKinds r.columns →
        document (text_of (delete_json lsn r m)) ≡ Some (delete_json lsn r m) }
    ensures truncate { (lsn : ℕ) (r : Relation) →
        document (text_of (truncate_json lsn r)) ≡ Some (truncate_json lsn r) }
    ensures summary { (transactions changes position : ℕ) → transactions < 2 ^ 32 →
        changes < 2 ^ 64 →
        document (text_of (summary_json transactions changes position))
        ≡ Some (summary_json transactions changes position) }
{}

/// A Commit ends its transaction where it says, and a note is one by itself, whatever stands in it. No other line ends one.
pub fn lines_tell_where_they_end()
    ensures commit { (m : Commit) → m.end < 2 ^ 64 → FitsSigned w64 m.time →
        end_of (text_of (commit_json m)) ≡ Some m.end }
    ensures note { (m : Message) → m.is_transactional ≡ false → m.position < 2 ^ 64 →
        end_of (text_of (message_json m)) ≡ behind m.position }
    ensures message { (m : Message) → m.is_transactional ≡ true →
        end_of (text_of (message_json m)) ≡ None }
    ensures begin { (m : Begin) → m.xid < 2 ^ 32 → FitsSigned w64 m.time →
        end_of (text_of (begin_json m)) ≡ None }
    ensures insert { (lsn : ℕ) (r : Relation) (m : Insert) → AreKinds r.columns →
        end_of (text_of (insert_json lsn r m)) ≡ None }
    ensures update { (lsn : ℕ) (r : Relation) (m : Update) → AreKinds r.columns →
        end_of (text_of (update_json lsn r m)) ≡ None }
    ensures delete { (lsn : ℕ) (r : Relation) (m : Delete) → AreKinds r.columns →
        end_of (text_of (delete_json lsn r m)) ≡ None }
    ensures truncate { (lsn : ℕ) (r : Relation) → end_of (text_of (truncate_json lsn r)) ≡ None }
    ensures summary { (transactions changes position : ℕ) → transactions < 2 ^ 32 → changes < 2 ^ 64
        → end_of (text_of (summary_json transactions changes position)) ≡ None }
{}

/// What a line begins with tells whether it is the first of a transaction, a note or the last of all, which of them is a note, and
/// whether it is a change.
pub fn lines_begin_with_what_they_tell()
    ensures begin { (m : Begin) → Tells (line_of (begin_json m)) true false false }
    ensures commit { (m : Commit) → Tells (line_of (commit_json m)) false false false }
    ensures note { (m : Message) → m.is_transactional ≡ false →
        Tells (line_of (message_json m)) true true false }
    ensures message { (m : Message) → m.is_transactional ≡ true →
        Tells (line_of (message_json m)) false false false }
    ensures insert { (lsn : ℕ) (r : Relation) (m : Insert) →
        Tells (line_of (insert_json lsn r m)) false false true }
    ensures update { (lsn : ℕ) (r : Relation) (m : Update) →
        Tells (line_of (update_json lsn r m)) false false true }
    ensures delete { (lsn : ℕ) (r : Relation) (m : Delete) →
        Tells (line_of (delete_json lsn r m)) false false true }
    ensures truncate { (lsn : ℕ) (r : Relation) →
        Tells (line_of (truncate_json lsn r)) false false true }
    ensures summary { (transactions changes position : ℕ) →
        Tells (line_of (summary_json transactions changes position)) true false false }
{}
