//! The words of the command line.

use clap::{Arg, ArgAction, ArgMatches, Command, Error};
use command_line::{CommandLine, Word, WordForm, WordsFault};
use std::alloc::{AllocError, Global};

const ABOUT: &str =
    "Follows a slot of a publisher, prints each message of its stream on a line, and acknowledges each transaction";

const AFTER_HELP: &str = "\
For example, with a publisher on port 5433 of this machine:

  subcat --create 127.0.0.1:5433 mine 0/0 p 1

creates the slot mine, waits for one transaction of the publication p, and prints it:

  BEGIN 700 0/1000030 5
  RELATION 16384 public.item d id:23* name:25 qty:20
  INSERT 16384 N('1','ab','7')
  COMMIT 0/1000030 0/1000050 5

A position is where the stream should begin; a slot that has confirmed more begins there. With
a COUNT of 0 the stream is ended at once.

With --messages the messages are asked for that sessions put into the log, in a transaction or
outside of one. One outside is counted as a transaction.

With --follow a connection that is lost, refused or silent for a minute, a slot that is still
active and a server that is not there are tried again, after 0.1 s and then twice as long each
time, up to 5 s, until something comes again; each try is told on the standard error. A
transaction is printed when it is whole, and once, whatever comes again. --create then creates
the slot unless there is one.

With --output FILE it is printed at the end of FILE, and on the disk before it is acknowledged.
FILE also says where to go on: a run that is killed and started again with the same words cuts off
what it half wrote, begins after the last transaction of FILE, and prints none twice. POSITION is
where it begins if FILE is empty, and COUNT counts the transactions of FILE. FILE.system keeps which
system FILE is of.

Each server of a run has to say that it is the same system, and that of FILE if FILE holds a
transaction: positions of another say nothing of what was printed. Where it is another one, and where
FILE is removed or replaced meanwhile, nothing more is acknowledged.

With --copy the slot is made, and first the rows are printed that its publications' tables hold at its
point, as inserts of one transaction that ends there: its xid is 0. It is printed when it is whole, and
counts as one. The server has to answer what PostgreSQL's own subscribers ask, as PostgreSQL 15 and
pubd --answer-postgresql do, and POSITION is 0/0. A slot that is there already is refused; but one that
a run left whose copy didn't come to its end, as FILE.copy then says, is dropped and made again.

With --json each message is an object of JSON, as in wal2json's format-version 2:

  {\"action\":\"B\",\"xid\":700,\"lsn\":\"0/1000030\",\"timestamp\":5}
  {\"action\":\"I\",\"lsn\":\"0/1000000\",\"schema\":\"public\",\"table\":\"item\",
   \"columns\":[{\"name\":\"id\",\"type\":\"integer\",\"value\":1},..]}
  {\"action\":\"C\",\"lsn\":\"0/1000030\",\"nextlsn\":\"0/1000050\",\"timestamp\":5}
  {\"summary\":{\"transactions\":1,\"changes\":1,\"lsn\":\"0/1000050\"}}

each on one line. Members are wal2json's but for these: timestamp counts microseconds since
2000-01-01; identity is what was sent of the old row; lsn stands on each change too; typeoid is of a
type whose name isn't known, contenthex of content that isn't UTF-8. With --send-times each line of
action C, and each message outside of a transaction, has sent too: what the server's clock said as it
sent that, in microseconds since 2000-01-01. The last line, summary, stands where the stream ends,
and the next run on FILE cuts it off. What FILE holds has to be in the same form.

The user is --user, or else PGUSER, or else subcat; its database has the same name. A server that asks
for a password gets the proof of PGPASSWORD, or else of the first line that fits of the
--password-file, or else of the file PGPASSFILE, or else of ~/.pgpass: a line is
hostname:port:database:username:password, and * fits all. The proof is SCRAM-SHA-256, and the server
has to prove that it knows the password too. A file may be read by its owner alone; another
--password-file is refused, and another PGPASSFILE is told and not used.

It ends with 0 after COUNT transactions, with 2 where the arguments are refused, and with 1
where the connection, the server, the output or memory fails, or the server is another system. What
the server refused is printed as server: CODE text.";

/// What the program is asked to follow.
#[derive(Clone, Copy)]
pub struct Words<'a> {
    pub create: bool,
    pub follow: bool,
    pub json: bool,
    pub messages: bool,
    pub copy: bool,
    pub send_times: bool,
    pub output: Option<&'a str>,
    pub user: Option<&'a str>,
    pub password_file: Option<&'a str>,
    pub address: &'a str,
    pub slot: &'a str,
    pub position: &'a str,
    pub publications: &'a str,
    pub count: &'a str,
}

/// The words: those that stand alone, and those that have to be there. Files stand apart.
const WORDS: [Word<'static>; 9] = [
    Word {
        name: "create",
        form: WordForm::Flag,
        help: "Create the slot first",
    },
    Word {
        name: "follow",
        form: WordForm::Flag,
        help: "Go on over lost connections, and print each transaction once",
    },
    Word {
        name: "json",
        form: WordForm::Flag,
        help: "Print an object of JSON on a line, as users of wal2json know them",
    },
    Word {
        name: "messages",
        form: WordForm::Flag,
        help: "Ask for the messages in the log too",
    },
    Word {
        name: "ADDR",
        form: WordForm::Required,
        help: "The publisher's address and port, as in 127.0.0.1:5433",
    },
    Word {
        name: "SLOT",
        form: WordForm::Required,
        help: "The name of the slot",
    },
    Word {
        name: "POSITION",
        form: WordForm::Required,
        help: "Where the stream should begin, as in 0/0",
    },
    Word {
        name: "PUBLICATIONS",
        form: WordForm::Required,
        help: "Names of publications, joined by commas",
    },
    Word {
        name: "COUNT",
        form: WordForm::Required,
        help: "After how many transactions the stream is ended",
    },
];

const SUBCAT: CommandLine<'static> = CommandLine {
    name: "subcat",
    about: ABOUT,
    after_help: AFTER_HELP,
    words: &WORDS,
};

/// All words. `Usage`, with the text to tell, where a user asks for help or gives other words, or where memory is refused.
pub fn words_of<'a>(alloc: Global, given: &'a [String]) -> Result<Words<'a>, WordsFault> {
    match read(alloc, given) {
        Ok(matches) => Ok(words_in(&matches)),
        Err(fault) => Err(WordsFault::Usage(fault)),
    }
}

fn read<'a>(alloc: Global, given: &'a [String]) -> Result<ArgMatches<'a>, Error> {
    command_of(alloc)?.try_get_matches_from(given)
}

fn command_of<'a>(alloc: Global) -> Result<Command<'a>, AllocError> {
    with_files(alloc, SUBCAT.command(alloc)?)
}

fn with_files<'a>(alloc: Global, command: Command<'a>) -> Result<Command<'a>, AllocError> {
    command
        .arg(copy(alloc)?)?
        .arg(output(alloc)?)?
        .arg(send_times(alloc)?)?
        .arg(user(alloc)?)?
        .arg(password_file(alloc)?)
}

fn copy(alloc: Global) -> Result<Arg<'static>, AllocError> {
    Arg::new(alloc, "copy")
        .long("copy")
        .action(ArgAction::SetTrue)
        .help("With --follow, make the slot, and print the rows that are there first")
        .requires_arg("follow")
}

fn output(alloc: Global) -> Result<Arg<'static>, AllocError> {
    Arg::new(alloc, "output")
        .long("output")
        .value_name("FILE")
        .action(ArgAction::Set)
        .help("With --follow, print into FILE, and go on where it ends")
        .requires_arg("follow")
}

fn send_times(alloc: Global) -> Result<Arg<'static>, AllocError> {
    Arg::new(alloc, "send-times")
        .long("send-times")
        .action(ArgAction::SetTrue)
        .help("With --json, print when the server sent each transaction")
        .requires_arg("json")
}

fn user(alloc: Global) -> Result<Arg<'static>, AllocError> {
    let arg = Arg::new(alloc, "user")
        .long("user")
        .value_name("NAME")
        .action(ArgAction::Set);
    Ok(arg.help("Connect as this user"))
}

fn password_file(alloc: Global) -> Result<Arg<'static>, AllocError> {
    let arg = Arg::new(alloc, "password-file")
        .long("password-file")
        .value_name("FILE")
        .action(ArgAction::Set);
    Ok(arg.help("Prove the password that FILE has, where the server asks for one"))
}

/// All but the options are required, so they are there.
fn words_in<'a>(matches: &ArgMatches<'a>) -> Words<'a> {
    Words {
        create: matches.get_flag("create"),
        follow: matches.get_flag("follow"),
        json: matches.get_flag("json"),
        messages: matches.get_flag("messages"),
        copy: matches.get_flag("copy"),
        send_times: matches.get_flag("send-times"),
        output: matches.get_str("output"),
        user: matches.get_str("user"),
        password_file: matches.get_str("password-file"),
        address: matches.get_str("ADDR").unwrap_or(""),
        slot: matches.get_str("SLOT").unwrap_or(""),
        position: matches.get_str("POSITION").unwrap_or(""),
        publications: matches.get_str("PUBLICATIONS").unwrap_or(""),
        count: matches.get_str("COUNT").unwrap_or(""),
    }
}
