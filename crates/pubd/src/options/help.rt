//! What `pubd --help` says in front of its words and after them.

use command_line::help_text;

pub(crate) const ABOUT: &str =
    "Serves logical replication of tables in memory to clients of PostgreSQL's streaming replication protocol";

pub(crate) const AFTER_HELP: &str = help_text!(
    "  tables = [{ name = 'public.item' }]

The log has room for that number of records. Each stream keeps the changes of transactions in
progress in that number of chunks, each of 16,384 bytes; where they are full it ends (53400).

A script has one line for each step. T is a name for a transaction.

",
    "
Without a TIME a commit takes the clock's. A text may also be written with escapes, as E'a\\nb'
(\\b \\f \\n \\r \\t \\' \\\\ \\xHH \\uXXXX \\UXXXXXXXX). Empty lines and those that begin with # are passed over.

These steer the stream of the slot S, or its next one, for tests of clients:

  await S POSITION [SECONDS]
                           the lines after it wait until S is confirmed at POSITION, as in
                           0/1000050; after so many SECONDS it is refused (A1)
  await S stream [SECONDS]
                           the same until a client streams from S
  hold S                   nothing of the stream is written any more
  resume S                 it goes on
  ask S                    a keepalive asks the client for an answer
  cut S                    its connection is cut between two frames
  cut S N                  its connection is cut after N more bytes
  reload                   the file of --passwords is read again; a wrong line is refused (A2)
  end                      the server ends: streams send what is left and CopyDone

For example

  pubd --await-streams 1 pubd.toml 127.0.0.1:5433 1 load.script

prints listening 127.0.0.1:5433, serves one connection, runs the script on a thread of its own
once that connection's stream has begun, and ends once both have ended. Without --await-streams
scripts begin at once, and a slot that is created later begins after what they have committed
by then. A client connects to it as to a walsender of PostgreSQL, with
replication=database. A line of a script that is refused is printed on the standard error: the
script's name, the line's number, a code and why, as in load.script 7 S3 a row with this key
exists. The script then goes on. So is a line that steers, once it is done, with ok alone.

A script that is named - is the standard input. Its lines are done as they come, beside the
connections, and each is answered on the standard output, in their order: by ok, after a commit
with the position at which it ends, as in ok 0/1000050, or by the code of its refusal and why. While
a line awaits, lines after it that steer are done at once, and end ends the wait. So another
program can drive the server through a pipe:

  pubd pubd.toml 127.0.0.1:5433 forever -

serves until it is told end, its input ends (but with --keep-serving), or a signal ends it, and
writes what it is told.

It ends with 0 where that is done, with 2 where the arguments, the configuration or a script are
refused, and with 1 where a file, the socket or memory fails."
);
