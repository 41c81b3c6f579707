//! What a session's line answered.

use txlog::SessionFault;

/// What a session's line answered: it was done, or the publisher refused it, which changes nothing.
#[derive(Clone, Copy, Debug, PartialEq, Eq)]
pub enum SessionAnswer {
    Done,
    Refused(SessionFault),
}
