//! The law of sections: a sender may be fed a log from any of its records on.

ghost use Rattle.std.specs.Prelude.{◌≡◌, ◌++◌, List};
ghost use Rattle.wal.specs.declared.record.Record.{Record};
ghost use Rattle.wal.specs.Log.{IsWellFormedLog};
ghost use Rattle.walsender.specs.Sending.{MayFollow};

/// Of a well-formed log, some records of which were skipped and the next ones read: those after them may follow. So what `feed`
/// promises of records that may follow holds of every log, from wherever in it a sender begins, and however they come.
pub fn a_section_may_be_fed()
    ensures { (log skipped before records rest : List Record) → IsWellFormedLog log →
        log ≡ skipped ++ ((before ++ records) ++ rest) → MayFollow before records }
{}
