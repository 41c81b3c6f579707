//! Why the words of the command line are of no use.

use command_line::WordsFault;
use std::fmt;
use thiserror::Error;

/// Why words are refused, or that they ask for help.
#[derive(Debug, Drop, Error)]
pub enum CommandFault {
    #[error("{0}")]
    Words(#[from] WordsFault),
    #[error("{0}")]
    Number(#[from] NumberFault),
}

impl CommandFault {
    /// 2 where words are refused, 0 where they ask for help, and 1 where memory failed.
    pub fn status(&self) -> u8 {
        match self {
            CommandFault::Words(fault) => fault.status(),
            CommandFault::Number(_) => 2,
        }
    }
}

/// Which word doesn't say a number, a time, an address or a level that may stand in its place.
#[derive(Clone, Copy, Debug, PartialEq, Eq)]
pub enum NumberFault {
    StatusAddress,
    Connections,
    Awaited,
    Silence,
    Startup,
    AtOnce,
    Slots,
    Senders,
    SlotKeep,
    WorkMemory,
    Level,
    SynchronousCommit,
}

impl NumberFault {
    fn text(self) -> &'static str {
        match self {
            NumberFault::StatusAddress => {
                "ADDR of --status is an address and a port, as in 127.0.0.1:9187"
            }
            NumberFault::Connections => "CONNECTIONS is a number from 0 to 1000, or forever",
            NumberFault::Awaited => "N of --await-streams is a number from 0 to 4294967295",
            NumberFault::Silence => {
                "TIME of --wal-sender-timeout is a number, and ms, s, min, h or d after it, as in 60s"
            }
            NumberFault::Startup => {
                "TIME of --authentication-timeout is a number, and ms, s, min, h or d after it, as in 60s"
            }
            NumberFault::AtOnce => "N of --max-connections is a number from 1 to 4294967295",
            NumberFault::Slots => "N of --max-replication-slots is a number from 1 to 1024",
            NumberFault::Senders => "N of --max-wal-senders is a number from 1 to 1024",
            NumberFault::SlotKeep => "RECORDS of --max-slot-keep is a number from 1 to 4294967295",
            NumberFault::WorkMemory => {
                "SIZE of --logical-decoding-work-mem is a number, and kB, MB, GB or TB after it, from 64kB to 2147483647kB"
            }
            NumberFault::Level => "LEVEL of --log-min-messages is info, warning or error",
            NumberFault::SynchronousCommit => "WORD of --synchronous-commit is on or off",
        }
    }
}

impl fmt::Display for NumberFault {
    fn fmt<W: fmt::Write>(&self, f: &mut fmt::Formatter<W>) -> fmt::Result {
        f.write_str(self.text())
    }
}

impl std::error::Error for NumberFault {}
