//! Why a session's call is refused.

ghost use Rattle.std.specs.Prelude.{◌≡◌};
ghost use Rattle.txlog.specs.declared.answers.fault.SessionFault.TheVariants.{Memory};
ghost use Rattle.txlog.specs.Publishing.{code_of, fault_of};

use std::alloc::{AllocError, AllocFailed};
use std::error::Error;
use std::fmt;
use store::StoreFault;

/// Why a session's call was refused. A refused call changes nothing.
#[derive(Clone, Copy, Debug, PartialEq, Eq)]
pub enum SessionFault {
    UnknownTable,
    RowShape,
    DuplicateKey,
    NoSuchRow,
    KeyHeld,
    TooLarge,
    LogFull,
    NoSavepoint,
    TooDeep,
    TooManyLive,
    Memory,
    NoReader,
    BadPrefix,
    NoTransaction,
}

impl fmt::Display for SessionFault {
    fn fmt<W: fmt::Write>(&self, f: &mut fmt::Formatter<W>) -> fmt::Result {
        f.write_str(match self {
            SessionFault::UnknownTable => "there is no such table",
            SessionFault::RowShape => "the row does not fit the table",
            SessionFault::DuplicateKey => "a row with this key exists",
            SessionFault::NoSuchRow => "there is no row with this key",
            SessionFault::KeyHeld => "another transaction holds the key",
            SessionFault::TooLarge => "the row is too large",
            SessionFault::LogFull => "the log is full",
            SessionFault::NoSavepoint => "there is no such savepoint",
            SessionFault::TooDeep => "savepoints are nested too deeply",
            SessionFault::TooManyLive => "too many transactions are live",
            SessionFault::Memory => "out of memory",
            SessionFault::NoReader => "no reader can be made",
            SessionFault::BadPrefix => "no message has this prefix",
            SessionFault::NoTransaction => "the transaction is not live",
        })
    }
}

impl Error for SessionFault {}

impl SessionFault {
    /// The fault's code, S and its number.
    pub fn code(&self) -> &'static str
        ensures { result.now ≡ code_of self.now }
    {
        match self {
            SessionFault::UnknownTable => "S1",
            SessionFault::RowShape => "S2",
            SessionFault::DuplicateKey => "S3",
            SessionFault::NoSuchRow => "S4",
            SessionFault::KeyHeld => "S5",
            SessionFault::TooLarge => "S6",
            SessionFault::LogFull => "S7",
            SessionFault::NoSavepoint => "S8",
            SessionFault::TooDeep => "S9",
            SessionFault::TooManyLive => "S10",
            SessionFault::Memory => "S11",
            SessionFault::NoReader => "S12",
            SessionFault::BadPrefix => "S13",
            SessionFault::NoTransaction => "S14",
        }
    }
}

impl From<AllocError> for SessionFault {
    ghost from_gives = { λ _ e. e ≡ Memory };

    fn from(_e: AllocError) -> SessionFault {
        SessionFault::Memory
    }
}

impl<T: Drop> From<AllocFailed<T>> for SessionFault {
    ghost from_gives = { λ _ e. e ≡ Memory };

    fn from(_e: AllocFailed<T>) -> SessionFault {
        SessionFault::Memory
    }
}

impl From<StoreFault> for SessionFault {
    ghost from_gives = { λ fault e. e ≡ fault_of fault };

    fn from(fault: StoreFault) -> SessionFault {
        match fault {
            StoreFault::UnknownTable => SessionFault::UnknownTable,
            StoreFault::RowShape => SessionFault::RowShape,
            StoreFault::DuplicateKey => SessionFault::DuplicateKey,
            StoreFault::NoSuchRow => SessionFault::NoSuchRow,
            StoreFault::KeyHeld => SessionFault::KeyHeld,
            StoreFault::TooLarge => SessionFault::TooLarge,
            StoreFault::BadPrefix => SessionFault::BadPrefix,
            StoreFault::Memory => SessionFault::Memory,
        }
    }
}
