//! Why an order isn't placed.

use hub::{ChangeFault, EndFault, NoteFault, SessionFault};
use thiserror::Error;

#[derive(Clone, Copy, Debug, PartialEq, Eq, Error)]
pub enum OrderFault {
    #[error("nothing of it is there")]
    SoldOut,
    #[error("{0}")]
    Change(#[from] ChangeFault),
    #[error("{0}")]
    Session(#[from] SessionFault),
    #[error("{0}")]
    Note(#[from] NoteFault),
    #[error("{0}")]
    End(#[from] EndFault),
}
