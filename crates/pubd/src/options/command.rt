//! The command line: which words it may have, and how they are read.

use crate::options::command_fault::CommandFault;
use crate::options::help::{ABOUT, AFTER_HELP};
use crate::options::words::Words;
use clap::ArgMatches;
use command_line::{CommandLine, Word, WordForm, WordsFault};
use std::alloc::{AllocError, Global};

/// The words: those that may be left out, those that have to be there, and scripts.
const WORDS: [Word<'static>; 23] = [
    Word {
        name: "await-streams",
        form: WordForm::Option("N"),
        help: "Run the scripts once N streams have begun, or no more connections come",
    },
    Word {
        name: "wal-sender-timeout",
        form: WordForm::Option("TIME"),
        help: "Close a stream's connection where its client is silent for so long: 60s unless it is given, 0 for never",
    },
    Word {
        name: "authentication-timeout",
        form: WordForm::Option("TIME"),
        help: "Close a connection that has said no startup for so long: 60s unless it is given, 0 for never",
    },
    Word {
        name: "max-connections",
        form: WordForm::Option("N"),
        help: "Serve so many connections at once, and refuse more: 100 unless it is given",
    },
    Word {
        name: "max-replication-slots",
        form: WordForm::Option("N"),
        help: "Let there be so many slots at once, and refuse more (53400): 16 unless it is given, at most 1024",
    },
    Word {
        name: "max-wal-senders",
        form: WordForm::Option("N"),
        help: "Let so many streams run at once, and refuse more (53400): 16 unless it is given, at most 1024",
    },
    Word {
        name: "max-slot-keep",
        form: WordForm::Option("RECORDS"),
        help: "Give a slot up that holds more records of the log: its stream ends (57P01), and none of it begins any more (55000). Without it a slot that lags fills the log",
    },
    Word {
        name: "logical-decoding-work-mem",
        form: WordForm::Option("SIZE"),
        help: "Let the transactions in progress take so much memory in each stream, as in 64MB, in the place of the configuration's chunks",
    },
    Word {
        name: "log-min-messages",
        form: WordForm::Option("LEVEL"),
        help: "Say on the standard error which connections can't be taken (error), which end otherwise than by their clients and what is refused (warning, unless it is given), or how each ends (info)",
    },
    Word {
        name: "status",
        form: WordForm::Option("ADDR"),
        help: "Tell at this address and port what runs, over HTTP, as Prometheus reads it: GET /metrics",
    },
    Word {
        name: "answer-postgresql",
        form: WordForm::Flag,
        help: "Answer what CREATE SUBSCRIPTION and pg_recvlogical ask beside the commands of replication, and read commands as they write them",
    },
    Word {
        name: "allow-start-ahead",
        form: WordForm::Flag,
        help: "Let a stream start ahead of all that its slot has confirmed and sent, which is refused otherwise (55000): such a position is of another run",
    },
    Word {
        name: "passwords",
        form: WordForm::Option("FILE"),
        help: "Let only those connect that have a line in FILE, as --password-of prints it, and prove that they know its password",
    },
    Word {
        name: "data",
        form: WordForm::Option("FOLDER"),
        help: "Keep the log and its slots in FOLDER, which is made if it is missing, and go on by what it has; without it a server keeps nothing",
    },
    Word {
        name: "synchronous-commit",
        form: WordForm::Option("WORD"),
        help: "With --data: on, unless it is given, answers a commit once it is on the disk; off answers at once, and a crash may lose the last ones",
    },
    Word {
        name: "keep-serving",
        form: WordForm::Flag,
        help: "Serve on where the standard input ends, with forever and -",
    },
    Word {
        name: "end-on-sigterm",
        form: WordForm::Flag,
        help: "End in order at a SIGTERM, which whoever starts it has to block, as env --block-signal=TERM does: streams send what is left and CopyDone",
    },
    Word {
        name: "password-of",
        form: WordForm::Alone("NAME"),
        help: "Read a password from the standard input, print what PostgreSQL keeps of it for the user NAME, and serve nothing",
    },
    Word {
        name: "inspect",
        form: WordForm::Alone("FOLDER"),
        help: "Print what the log in FOLDER has, a line for each record and each change of a slot, and serve nothing",
    },
    Word {
        name: "CONFIG",
        form: WordForm::Required,
        help: "A TOML file with the server, the tables and their publications",
    },
    Word {
        name: "ADDR",
        form: WordForm::Required,
        help: "The address and port to listen at, as in 127.0.0.1:5433 or localhost:5433",
    },
    Word {
        name: "CONNECTIONS",
        form: WordForm::Required,
        help: "After how many connections it ends: 0 to 1000, or forever",
    },
    Word {
        name: "SCRIPT",
        form: WordForm::Repeated,
        help: "Text files of such lines, or - for the standard input",
    },
];

const PUBD: CommandLine<'static> = CommandLine {
    name: "pubd",
    about: ABOUT,
    after_help: AFTER_HELP,
    words: &WORDS,
};

/// All words. `Words`, with the text to tell, where a user asks for help or gives other words, or where memory is refused.
pub fn words_of<'a>(alloc: Global, given: &'a [String]) -> Result<Words<'a>, CommandFault> {
    match PUBD.read(alloc, given) {
        Ok(matches) => Ok(words_in(alloc, &matches).map_err(WordsFault::Memory)?),
        Err(fault) => Err(CommandFault::Words(WordsFault::Usage(fault))),
    }
}

fn scripts_in<'a>(alloc: Global, matches: &ArgMatches<'a>) -> Result<Vec<&'a str>, AllocError> {
    let mut scripts = Vec::new(alloc);
    if let Some(paths) = matches.get_strs("SCRIPT") {
        for path in paths {
            scripts.push(*path)?;
        }
    }
    Ok(scripts)
}

/// The first three are required, so they are there, but where a password or a folder is asked for.
fn words_in<'a>(alloc: Global, matches: &ArgMatches<'a>) -> Result<Words<'a>, AllocError> {
    Ok(Words {
        config: matches.get_str("CONFIG").unwrap_or(""),
        address: matches.get_str("ADDR").unwrap_or(""),
        connections: matches.get_str("CONNECTIONS").unwrap_or(""),
        awaited: matches.get_str("await-streams"),
        silence: matches.get_str("wal-sender-timeout"),
        startup: matches.get_str("authentication-timeout"),
        at_once: matches.get_str("max-connections"),
        slots: matches.get_str("max-replication-slots"),
        senders: matches.get_str("max-wal-senders"),
        slot_keep: matches.get_str("max-slot-keep"),
        work_memory: matches.get_str("logical-decoding-work-mem"),
        messages: matches.get_str("log-min-messages"),
        status: matches.get_str("status"),
        answers_postgresql: matches.get_flag("answer-postgresql"),
        allows_start_ahead: matches.get_flag("allow-start-ahead"),
        keeps_serving: matches.get_flag("keep-serving"),
        ends_on_sigterm: matches.get_flag("end-on-sigterm"),
        passwords: matches.get_str("passwords"),
        password_of: matches.get_str("password-of"),
        data: matches.get_str("data"),
        synchronous_commit: matches.get_str("synchronous-commit"),
        inspected: matches.get_str("inspect"),
        scripts: scripts_in(alloc, matches)?,
    })
}
