//! The codes by which refusals are printed.

ghost use Rattle.std.specs.Prelude.{◌≡◌, option_map};
ghost use Rattle.world.specs.Codes.{answer_code};

use crate::printed::answer::Answer;
use client::ClientFault;
use walsender::SendFault;

impl Answer {
    /// The refusal's code; None where the event was done.
    pub fn code(&self) -> Option<&'static str>
        ensures { option_map (λ c. c.now) result ≡ answer_code self.now }
    {
        match self {
            Answer::Done | Answer::Front(_) => None,
            Answer::Session(fault) => Some(fault.code()),
            Answer::Slot(fault) => Some(fault.code()),
            Answer::NoReader => Some("L6"),
            Answer::Removed => Some("L9"),
            Answer::Publication(fault) => Some(fault.code()),
            Answer::Sender(SendFault::ArenaFull) => Some("G1"),
            Answer::Sender(SendFault::Memory) => Some("G2"),
            Answer::Sender(SendFault::Failed) => Some("G3"),
            Answer::Sender(SendFault::Gap) => Some("G4"),
            Answer::Subscriber(ClientFault::Frame) => Some("K1"),
            Answer::Subscriber(ClientFault::Order) => Some("K2"),
            Answer::Subscriber(ClientFault::UnknownRelation) => Some("K3"),
            Answer::Subscriber(ClientFault::Server) => Some("K4"),
            Answer::Subscriber(ClientFault::Memory) => Some("K5"),
            Answer::Subscriber(ClientFault::CommitEnd) => Some("K8"),
        }
    }
}
