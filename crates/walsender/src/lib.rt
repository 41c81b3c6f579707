//! A walsender without threads and sockets: from records of the log to the bytes of a stream, with the reader of the log that feeds
//! it, from the start of a stream to its end.
//!
//! `begin` judges whether a stream may begin, in the order of the refusals. `Walsender::begin` makes one. Then, in any order and any
//! number of times: `read` or `turn` reads the log on, `keepalive` adds a keepalive, `turn`, `write_held` and `drain_into` give bytes
//! away. `end` gives the reader back. `Sender` is its core, which is fed records.
//!
//! Read `walsender.rt`, `sender.rt`, `commit_frames/publishing.rt`, `commit_frames/making.rt`. Above, one contract is used: what was given away
//! since the start and what is held are a stream encoding of exactly what the records that were read publish (`serves`).
#![tactic(auto)]

mod beginning;
mod commit_frames;
mod ended;
mod fault;
mod feeding;
mod held;
mod section;
mod sender;
mod stream_turn;
mod walsender;

pub use beginning::{ClaimFault, StartBackend, StartFault, begin};
pub use ended::Ended;
pub use fault::SendFault;
pub use section::a_section_may_be_fed;
pub use sender::Sender;
pub use stream_turn::limits::TURN_RECORDS;
pub use stream_turn::turn_fault::TurnFault;
pub use stream_turn::turning::{turn, write_front};
pub use walsender::Walsender;
