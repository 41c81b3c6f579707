//! One growing log that many threads see: a writer adds records, and readers fetch them without a lock.
//!
//! A `LogWriter` pushes records (`appending/writer.rt`) and gives those back that nobody needs (`appending/given.rt`); each `LogReader` fetches from
//! its place on (`following/reader.rt`), and finds where to begin again (`following/resuming.rt`). `histories/law.rt` and `histories/rule.rt` say what each step of a
//! thread keeps.
//!
//! Read `histories/history.rt`, `appending/writer.rt`, `following/reader.rt`, then specs/Sharing.antt. Above, two contracts are used: a push adds its record
//! whole or changes nothing, and a fetch gives the records from a place on, of one log that only grows.
#![tactic(auto)]

mod appending;
mod fault;
mod following;
mod histories;

pub use appending::openings::Opening;
pub use appending::receipt::Receipt;
pub use appending::writer::LogWriter;
pub use fault::ReadFault;
pub use following::reader::LogReader;
pub use histories::copy::{LogCopy, Logged, PutRecord};
pub use histories::edge::Edge;
pub use histories::empty_history::EmptyHistory;
pub use histories::entry::Entry;
pub use histories::history::History;
pub use histories::law::Law;
pub use histories::mark::Mark;
pub use histories::name::LogName;
pub use histories::rule::{LogProtocol, View};
pub use histories::seen_prefix::SeenPrefix;
