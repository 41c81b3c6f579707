//! The law of logs: read record by record, a log says what the whole of it says by places.

ghost use Rattle.std.specs.Prelude.{◌≡◌, ◌≤◌, ◌++◌, ℕ, List, take};
ghost use Rattle.wal.specs.declared.record.Record.{Record};
ghost use Rattle.wal.specs.Log.{IsWellFormedLog, chain, committed_transactions};
ghost use Rattle.wal.specs.Places.{IsChain, SkipsNone, committed_by_places};
ghost use Rattle.wal.specs.Restart.{restart_place};

/// Of a well-formed log, `committed_transactions` and `chain`, which judge each record by those before it, are what `specs/Places.antt`
/// says of the log as a whole.
pub fn a_log_has_one_reading()
    // What transactions commit, and what each of them keeps.
    ensures committed { (log : List Record) (s : ℕ) → IsWellFormedLog log →
        committed_transactions log s ≡ committed_by_places log s }
    // The same of a section that is read alone: what its own records say is what the log says, where no record before it is needed,
    // which is one of a transaction that commits at the start position or later, or a note there or later.
    ensures section { (skipped records : List Record) (s : ℕ) →
        IsWellFormedLog (skipped ++ records) → SkipsNone (skipped ++ records) s skipped →
        committed_transactions records s ≡ committed_by_places (skipped ++ records) s }
    // There is a way up from each xid,
    ensures chain { (log : List Record) (x : ℕ) → IsWellFormedLog log →
        IsChain log x (chain log x) }
    // and there is no other.
    ensures one_chain { (log : List Record) (x : ℕ) (xs : List ℕ) → IsWellFormedLog log →
        IsChain log x xs → xs ≡ chain log x }
{}

/// What stands before the restart position of a log can be skipped: no transaction that commits at the start position or later
/// has a record there, and none will, however the log goes on; and no note stands there that starts at that position or later.
pub fn a_start_may_skip()
    ensures { (log more : List Record) (s : ℕ) → IsWellFormedLog (log ++ more) →
        SkipsNone (log ++ more) s (take (restart_place s log) log) }
{}

/// The place from which a stream reads never goes back: neither for a later start position, nor as the log goes on. So what stands
/// before the restart place of the position that a follower has confirmed is needed for no later one of its positions.
pub fn a_restart_moves_forward()
    ensures { (log more : List Record) (s t : ℕ) → IsWellFormedLog (log ++ more) → s ≤ t →
        restart_place s log ≤ restart_place t (log ++ more) }
{}
