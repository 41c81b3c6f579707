//! What an event answered.

ghost use Rattle.std.specs.Prelude.{◌≡◌};
ghost use Rattle.world.specs.Codes.{answer_of};

use client::ClientFault;
use publication_config::PubFault;
use schedule::SessionAnswer;
use slots::SlotFault;
use txlog::SessionFault;
use walsender::SendFault;

/// What an event that happened answered: it was done, or the part that it asked refused it.
#[derive(Clone, Copy, Debug, PartialEq, Eq)]
pub enum Answer {
    Done,
    Session(SessionFault),
    Slot(SlotFault),
    /// L6: every reader of the log serves a sender already.
    NoReader,
    /// L9: the log gave back what the start needs.
    Removed,
    /// So many records of the log were given back.
    Front(usize),
    Publication(PubFault),
    Sender(SendFault),
    Subscriber(ClientFault),
}

impl Answer {
    pub(crate) fn of_session(answer: SessionAnswer) -> Answer
        ensures { result ≡ answer_of answer }
    {
        match answer {
            SessionAnswer::Done => Answer::Done,
            SessionAnswer::Refused(fault) => Answer::Session(fault),
        }
    }
}
