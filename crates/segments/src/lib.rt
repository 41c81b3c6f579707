//! Files of the log on the disk: entries, each whole or not there, whatever a crash has left; and in them the records of a log, what
//! became of its slots, and whose log it is.
//!
//! A `Segment` is one file. `create` begins one, `append` writes an entry at its end, and what `sync` has returned for outlives each
//! crash. `open` finds the entries of a file that a crash may have left: its torn end is cut, and damage before that is refused with
//! its place. A file is whatever `sqlite_disk` calls a `Disk`: a real one, or one of memory that crashes where a test says so.
//! `LogKeeper` writes the records of a log into a segment, an entry each, and `replay` has a publisher go on by them. Beside them
//! stand what became of slots, which `SlotsInLog` puts together, and before all of them whose log it is.
//!
//! Read `entry.rt`, `segment.rt`, `finding.rt`, then `records/writing.rt`, `keeping.rt`, `replaying.rt`, `slot_events/writing.rt`. Above, three contracts are
//! used: what was synced is found again after any crash (`synced_entries_are_found`); what is found begins what was appended, unless
//! torn bytes carry a digest that fits them (`found_entries_were_appended`); and the log that goes on by entries which begin others
//! begins the log that those were written of (`a_log_is_recovered`).
#![tactic(auto)]

mod entry;
mod fault;
mod finding;
mod header;
mod identity;
mod keep_fault;
mod keeping;
mod laws;
mod log_keeper;
mod opening;
mod records;
mod recovery_fault;
mod replaying;
mod segment;
mod slot_events;

pub use entry::Entry;
pub use fault::SegmentFault;
pub use finding::{Content, read_content};
pub use header::HEADER_LENGTH;
pub use identity::{IDENTITY_TAG, read_identity, write_identity};
pub use keep_fault::KeepFault;
pub use laws::{found_entries_were_appended, synced_entries_are_found};
pub use log_keeper::LogKeeper;
pub use records::fault::RecordFault;
pub use records::laws::{a_log_is_recovered, a_record_is_read_again};
pub use records::reading::read_record;
pub use records::record_body::RecordBody;
pub use records::writing::{
    ABORT_SUB_TAG, ABORT_TAG, ASSIGN_TAG, CHANGE_TAG, COMMIT_TAG, NOTE_TAG, put_record,
};
pub use recovery_fault::RecoveryFault;
pub use replaying::{is_beside, replay, replay_entry};
pub use segment::{MAX_BODY_LENGTH, Segment};
pub use slot_events::kept_slot::KeptSlot;
pub use slot_events::laws::a_slot_event_is_read_again;
pub use slot_events::reading::read_slot_event;
pub use slot_events::slot_event::SlotEvent;
pub use slot_events::slots_in_log::SlotsInLog;
pub use slot_events::writing::{DROPPED_TAG, SLOT_TAG, put_slot_event};
