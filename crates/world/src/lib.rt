//! Sessions, a log and senders over one another, driven by the events of a schedule: the whole publisher, deterministic
//! and without threads.
//!
//! `World::run` does a list of events, and `World::step` one; `World::answers` lends what each answered, and
//! `World::starts` what each start of a sender produced. `write_answers`, `write_stream`, `write_slot` and `write_subscriber` print.
//!
//! Read `world.rt`, `machine.rt`, `stepping/start.rt`, then specs/Steps.antt and specs/Law.antt. Above, one contract is used: a run
//! is its events one after the other, and what each start produced is a beginning of the stream that its log publishes.
#![tactic(auto)]

mod limits;
mod machine;
mod opening;
mod pipe_back;
mod printed;
mod reading;
mod stepping;
mod subscriber;
mod world;

pub use limits::MAX_SENDERS;
pub use printed::answer::Answer;
pub use printed::report::{write_answers, write_slot, write_stream, write_subscriber};
pub use reading::resume;
pub use schedule::{
    BadEvent, ConnectionStep, Event, Literal, Schedule, ScheduleFault, SessionStep, Sessions,
    WorldFault,
};
pub use slots::{Slot, SlotFault};
pub use stepping::action::Action;
pub use stepping::start::Start;
pub use subscriber::Subscriber;
pub use world::{RunFault, World};
