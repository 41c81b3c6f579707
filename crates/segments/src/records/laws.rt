//! What is told of a record is read again as it was.

ghost use Rattle.std.specs.Prelude.{◌≡◌, [], List, Ok};
ghost use mathlib.Core.List.{IsPrefix};
ghost use Rattle.segments.specs.Entries.{Written};
ghost use Rattle.segments.specs.RecordReading.{record_in};
ghost use Rattle.segments.specs.Keeping.{bodies_of};
ghost use Rattle.segments.specs.Kinds.{records_in};
ghost use Rattle.segments.specs.Recovery.{AreTold, Replays};
ghost use Rattle.segments.specs.Records.{IsNoted, IsTold, spell_record};
ghost use Rattle.wal.specs.Log.{IsWellFormedLog};
ghost use Rattle.wal.specs.declared.record.Body.{Body};
ghost use Rattle.wal.specs.declared.record.Record.{Record};

/// Each record has one spelling, from which it is read again.
pub fn a_record_is_read_again()
    ensures again { (b : Body) → IsTold b → IsNoted b → record_in (spell_record b) ≡ Ok b }
    ensures one { (b c : Body) → IsTold b → IsTold c → spell_record b ≡ spell_record c → b ≡ c }
{}

/// What is recovered of a well-formed log, whose records these entries tell, among others, by other entries: a beginning of it where they begin those,
/// and the log with all that came later where those begin them.
pub fn a_log_is_recovered()
    ensures { (log recovered : List Record) (es found : List Written) → IsWellFormedLog log →
        AreTold (records_in es) (bodies_of log) → Replays found [] recovered →
        (IsPrefix found es → IsPrefix recovered log)
        × (IsPrefix es found → IsPrefix log recovered) }
{}
