//! Schedules: texts of one event a line that drive a publisher, and the sessions that their lines name.
//!
//! `Schedule::parse` reads a text. `Sessions::line` does the line of a session: it begins, changes or ends a transaction, or sets and
//! leaves its savepoints, by one call of the publisher. Crate `world` runs the other events, and prints what a run answered.
//!
//! Read `event.rt`, `lines/parse.rt`, `sessions.rt`, `session_answer.rt`. Above, `world` and `pubd` use one contract: a session's
//! line makes its one call of the publisher, or is refused as a bad line exactly where a rule says (`Sessions::line`: `done`, `bad`).
#![tactic(auto)]

mod calls;
mod event;
mod fault;
mod lines;
mod schedule;
mod session;
mod session_answer;
mod sessions;

pub use event::{ConnectionStep, Event, Literal, SessionStep};
pub use fault::{BadEvent, WorldFault};
pub use lines::bad_line::{BadLine, LineDialect, LineRefusal};
pub use lines::start_options::StartOptions;
pub use schedule::{Schedule, ScheduleFault};
pub use session_answer::SessionAnswer;
pub use sessions::Sessions;
