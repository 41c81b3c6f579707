//! The snapshot that CREATE_REPLICATION_SLOT asks for.

ghost use Rattle.std.specs.Prelude.{◌≡◌};
ghost use Rattle.replcmd.specs.Snapshots.{said_snapshot, snapshot_named};

use crate::clauses::strictness::Strictness;
use crate::text::words::is_keyword;

/// What is to be done with the snapshot of a new slot (PostgreSQL 15, 55.4).
#[derive(Clone, Copy, Debug, PartialEq, Eq)]
pub enum SnapshotClause {
    /// It is named, for other sessions to use; also where nothing is said of it.
    Export,
    /// Nothing.
    Nothing,
    /// The transaction that makes the slot uses it.
    Use,
}

impl SnapshotClause {
    /// What this keyword says of a snapshot, where it may be said.
    #[tactic(auto, unfolding(crate::specs::Snapshots::said_snapshot))]
    pub(crate) fn said(strictness: Strictness, word: &str) -> Option<SnapshotClause>
        ensures { result ≡ said_snapshot strictness word.now }
    {
        if is_keyword("NOEXPORT_SNAPSHOT", word) {
            return Some(SnapshotClause::Nothing);
        }
        match strictness {
            Strictness::Strict => None,
            Strictness::Lenient if is_keyword("EXPORT_SNAPSHOT", word) => Some(
                SnapshotClause::Export,
            ),
            Strictness::Lenient if is_keyword("USE_SNAPSHOT", word) => Some(SnapshotClause::Use),
            Strictness::Lenient => None,
        }
    }

    /// What this value of the option SNAPSHOT says, where it may be said.
    #[tactic(auto, unfolding(crate::specs::Snapshots::snapshot_named))]
    pub(crate) fn named(strictness: Strictness, value: &str) -> Option<SnapshotClause>
        ensures { result ≡ snapshot_named strictness value.now }
    {
        match (strictness, value) {
            (_, "nothing") => Some(SnapshotClause::Nothing),
            (Strictness::Lenient, "export") => Some(SnapshotClause::Export),
            (Strictness::Lenient, "use") => Some(SnapshotClause::Use),
            _ => None,
        }
    }
}
