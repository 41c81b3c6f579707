//! Why a session or a command is refused, as the client is told it.

ghost use Rattle.std.specs.Prelude.{◌≡◌, ◌≤◌, length};
ghost use Rattle.server.specs.Refusals.{command_code, command_text, option_text, refusal_code, refusal_text};

use crate::backend_fault::BackendFault;
use replcmd::{CmdFault, OptionFault, Unserved};
use std::fmt;

/// A cause with a code of its own (PostgreSQL 15, appendix A) and a text.
#[derive(Clone, Copy, PartialEq, Eq)]
pub enum Refusal {
    /// A frame that can't be read, or that is out of its place.
    Violation,
    /// A startup of another version of the protocol.
    Version,
    /// A startup that doesn't ask for `replication=database`.
    NoReplication,
    /// The beginning of the initial copy of a table.
    InitialCopy,
    /// A slot whose snapshot is to be used by a transaction, where there is none.
    NoTransaction,
    /// Such a slot, where a query was answered before in the transaction.
    NotFirst,
    /// A slot in a transaction, whose snapshot is to be exported.
    ExportInBlock,
    /// A stream in a transaction.
    StartInBlock,
    /// Any query in a transaction that failed, but the ones that end it.
    BlockFailed,
    /// A parameter that isn't known.
    UnknownParameter,
    /// A step of an extended query.
    ExtendedQuery,
    /// A FunctionCall.
    FunctionCall,
    /// A text that is no command.
    Command(CmdFault),
    /// One that is a question, where questions are not answered.
    Question(CmdFault),
    /// A command that the backend refused.
    Asked(BackendFault),
}

impl Refusal {
    /// The code and the text.
    pub fn told(self) -> (&'static str, &'static str)
        ensures code { result.0.now ≡ refusal_code self }
        ensures text { result.1.now ≡ refusal_text self }
        ensures short { (length result.0.now ≤ 40) × (length result.1.now ≤ 80) }
    {
        match self {
            Refusal::Violation => ("08P01", "protocol violation"),
            Refusal::Version => ("0A000", "unsupported protocol version"),
            Refusal::NoReplication => ("0A000", "only replication=database is served"),
            Refusal::InitialCopy => (
                "0A000",
                "initial copies are not served: use WITH (copy_data = false)",
            ),
            Refusal::NoTransaction => (
                "XX000",
                "CREATE_REPLICATION_SLOT ... (SNAPSHOT 'use') must be called inside a transaction",
            ),
            Refusal::NotFirst => (
                "XX000",
                "CREATE_REPLICATION_SLOT ... (SNAPSHOT 'use') must be called before any query",
            ),
            Refusal::ExportInBlock => (
                "XX000",
                "a slot's snapshot must not be exported inside a transaction",
            ),
            Refusal::StartInBlock => (
                "25001",
                "START_REPLICATION cannot run inside a transaction block",
            ),
            Refusal::BlockFailed => (
                "25P02",
                "current transaction is aborted, commands ignored until its end",
            ),
            Refusal::UnknownParameter => ("42704", "unrecognized configuration parameter"),
            Refusal::ExtendedQuery => (
                "08P01",
                "extended query protocol not supported: only simple queries are served",
            ),
            Refusal::FunctionCall => (
                "08P01",
                "function calls not supported: only simple queries are served",
            ),
            Refusal::Command(fault) => (code_of(fault), text_of(fault)),
            Refusal::Question(fault) => {
                (code_of(fault), "not answered without --answer-postgresql")
            }
            Refusal::Asked(BackendFault::SlotMissing) => ("42704", "slot does not exist"),
            Refusal::Asked(BackendFault::SlotInUse) => ("55006", "slot is in use"),
            Refusal::Asked(BackendFault::SlotExists) => ("42710", "slot already exists"),
            Refusal::Asked(BackendFault::NoSlotPlace) => ("53400", "no slot place is left"),
            Refusal::Asked(BackendFault::UnknownPublication) => {
                ("42704", "publication does not exist")
            }
            Refusal::Asked(BackendFault::ListConflict) => ("0A000", "different column lists"),
            Refusal::Asked(BackendFault::NoReader) => ("53400", "too many senders"),
            Refusal::Asked(BackendFault::StartAhead(_)) => (
                "55000",
                "start is ahead of what the slot has sent",
            ),
            Refusal::Asked(BackendFault::SlotLost) => (
                "55000",
                "can no longer get changes from replication slot",
            ),
            Refusal::Asked(BackendFault::NotOwner) => {
                ("42501", "must be owner of replication slot")
            }
            Refusal::Asked(BackendFault::NotGranted) => {
                ("42501", "permission denied for publication")
            }
            Refusal::Asked(BackendFault::NoCopies) => (
                "0A000",
                "initial copies are not served: use WITH (copy_data = false)",
            ),
            Refusal::Asked(BackendFault::UnknownTable) => ("42P01", "relation does not exist"),
            Refusal::Asked(BackendFault::UnknownColumn) => ("42703", "column does not exist"),
            Refusal::Asked(BackendFault::UnknownFilter) => ("42601", "invalid row filter"),
            Refusal::Asked(BackendFault::NotKept) => ("58030", "could not write to the log's disk"),
            Refusal::Asked(BackendFault::Memory) => ("53200", "out of memory"),
        }
    }
}

/// The code of a text that is no command.
fn code_of(fault: CmdFault) -> &'static str
    ensures code { result.now ≡ command_code fault }
    ensures short { length result.now ≤ 40 }
{
    match fault {
        CmdFault::Syntax => "42601",
        CmdFault::BadName => "42602",
        CmdFault::BadPosition => "42601",
        CmdFault::Unsupported => "0A000",
        CmdFault::BadOption(OptionFault::OtherVersion) => "0A000",
        CmdFault::BadOption(_) => "22023",
        CmdFault::Memory => "53200",
    }
}

fn text_of(fault: CmdFault) -> &'static str
    ensures text { result.now ≡ command_text fault }
    ensures short { length result.now ≤ 80 }
{
    match fault {
        CmdFault::Syntax => "syntax error",
        CmdFault::BadName => "bad slot name",
        CmdFault::BadPosition => "bad position",
        CmdFault::Unsupported => "not supported",
        CmdFault::BadOption(fault) => option_text(fault),
        CmdFault::Memory => "out of memory",
    }
}

/// What is wrong with an option, in PostgreSQL's words where it has some.
fn option_text(fault: OptionFault) -> &'static str
    ensures text { result.now ≡ option_text fault }
    ensures short { length result.now ≤ 80 }
{
    match fault {
        OptionFault::Unrecognized => "unrecognized pgoutput option",
        OptionFault::Version => "invalid proto_version: only 1 is served",
        OptionFault::OtherVersion => "proto_version not supported: only 1, 2 and 3 are",
        OptionFault::PublicationNames => "invalid publication_names syntax",
        OptionFault::Messages => "messages requires a Boolean value",
        OptionFault::NotServed(Unserved::Binary) => "binary is not served",
        OptionFault::NotServed(Unserved::Streaming) => "streaming is not served",
        OptionFault::NotServed(Unserved::TwoPhase) => "two_phase is not served",
        OptionFault::NoTruth(Unserved::Binary) => "binary requires a Boolean value",
        OptionFault::NoTruth(Unserved::Streaming) => "streaming requires a Boolean value",
        OptionFault::NoTruth(Unserved::TwoPhase) => "two_phase requires a Boolean value",
        OptionFault::Redundant => "conflicting or redundant options",
        OptionFault::VersionMissing => "proto_version parameter missing",
        OptionFault::PublicationNamesMissing => "publication_names parameter missing",
    }
}

/// As it is told to who runs the server.
impl fmt::Display for Refusal {
    fn fmt<W: fmt::Write>(&self, f: &mut fmt::Formatter<W>) -> fmt::Result {
        match self {
            Refusal::Command(fault) => write!(f, "{fault}"),
            Refusal::Question(fault) => write!(f, "{fault}: --answer-postgresql answers it"),
            Refusal::Asked(fault) => write!(f, "{fault}"),
            other => f.write_str(other.told().1),
        }
    }
}
