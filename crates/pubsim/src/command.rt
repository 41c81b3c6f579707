//! The words of the command line.

use crate::simulation::ReportForm;
use clap::ArgMatches;
use command_line::{CommandLine, Word, WordForm, WordsFault, help_text};
use std::alloc::Global;

const ABOUT: &str =
    "Runs a schedule of sessions and replication senders over a publisher in memory, and prints what the senders produced";

const AFTER_HELP: &str = help_text!(
    "  tables = [{ name = 'public.item', where = 'id > 0', columns = ['id', 'qty'] }]

The log has room for that number of records, and a sender for changes of transactions in
progress in that number of chunks, each of 16,384 bytes. The types are bool, int2, int4, int8,
numeric, numeric(p,s), text, varchar, varchar(n), char(n), bytea, date, time, timestamp,
timestamptz and uuid. A table of a publication may have a filter and a column list; without them
all its rows and columns are published. A publication has tables = [..], or schemas = [..], or
all_tables = true, and publishes what publish = [..] names of insert, update, delete and
truncate, or all of them.

A schedule has one event a line, and fields separated by single spaces. Empty lines and
lines that begin with # are passed over. T is a transaction's name and C a connection's.

",
    "  slot NAME                a slot is created at the end of the log
  start C SLOT POSITION P,..
  start C SLOT POSITION P,.. messages
                           a sender of publications starts, as in start c - 0/0 p, where - is
                           no slot
  read C MAX CLOCK         the sender reads up to MAX records of the log
  keepalive C CLOCK        the sender puts a keepalive after what it holds
  drain C N                up to N bytes go from the sender into the pipe
  deliver C N              up to N bytes go from the pipe to the connection's subscriber
  status C CLOCK           the subscriber sends how far it is into the pipe back
  flushed C NUMBER         the same with this number as what it has flushed
  ack C                    the next status is taken from the pipe back, and confirms the slot
  cut C                    the connection is cut: its sender ends, its subscriber reconnects

For example:

  begin A
  insert A public.item (1,'ab',7)
  commit A 5
  start c - 0/0 p
  read c 100 9
  drain c 100000

It prints a line for each event that was refused, the number of its line and a code, as in
7 S1; and then a line for each sender: the connection's name, a colon and the bytes that
it produced, in hexadecimal. With --render these are lines of text, one for each frame: the
position that it carries, and its message, as in 0/1000030 BEGIN 700 0/1000030 5, or KEEPALIVE.
Then a line for each slot, as in slot s 0/1000050: how far it is
confirmed; and for each subscriber to which bytes were delivered, as in sub c 0/1000050 1: its
position, and how many transactions it has applied.

It ends with 0 where that is done, with 2 where the arguments, the configuration or the
schedule are refused, and with 1 where a file cannot be read, the report cannot be printed
or memory runs out."
);

/// What the program is asked to run.
#[derive(Clone, Copy)]
pub struct Words<'a> {
    pub config: &'a str,
    pub schedule: &'a str,
    pub form: ReportForm,
}

/// The words.
const WORDS: [Word<'static>; 3] = [
    Word {
        name: "render",
        form: WordForm::Flag,
        help: "Print what each sender produced as text, a line for each frame",
    },
    Word {
        name: "CONFIG",
        form: WordForm::Required,
        help: "A TOML file with the tables, their publications and the server",
    },
    Word {
        name: "SCHEDULE",
        form: WordForm::Required,
        help: "A text file with one event a line",
    },
];

const PUBSIM: CommandLine<'static> = CommandLine {
    name: "pubsim",
    about: ABOUT,
    after_help: AFTER_HELP,
    words: &WORDS,
};

/// All words, or the text for a user who asks for help or gives other words.
pub fn words_of<'a>(alloc: Global, given: &'a [String]) -> Result<Words<'a>, WordsFault> {
    match PUBSIM.read(alloc, given) {
        Ok(matches) => Ok(words_in(&matches)),
        Err(fault) => Err(WordsFault::Usage(fault)),
    }
}

/// All but --render are required, so they are there.
fn words_in<'a>(matches: &ArgMatches<'a>) -> Words<'a> {
    let form = match matches.get_flag("render") {
        true => ReportForm::Text,
        false => ReportForm::Digits,
    };
    Words {
        form,
        config: matches.get_str("CONFIG").unwrap_or(""),
        schedule: matches.get_str("SCHEDULE").unwrap_or(""),
    }
}
