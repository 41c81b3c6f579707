//! A service that publishes what it does.

use crate::hub::Hub;
use shared_log::LogName;
use slots::SlotName;
use std::sync::Wait;
use std::time::Clock;

/// How a hub is told from others. `with_hub` has a name of its own for each, so a service takes any.
pub trait HubName: LogName + SlotName {}

impl<L: LogName + SlotName> HubName for L {}

/// A service that publishes what it does, for `with_hub`.
pub trait Service {
    type Output;

    /// What is known of its answer.
    ghost answers: { Self → Self.Output → Type 0 } = { λ _ _. Unit {0} };

    /// Does the work, while connections are served from the hub beside it. The server ends when this is done.
    fn run<L: HubName, R: Wait + Clock>(self, rt: &R, hub: &Hub<L>) -> Self::Output
        ensures { answers self result };
}
