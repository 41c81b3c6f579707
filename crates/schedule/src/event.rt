//! The events of a schedule, one a line.

use crate::lines::start_options::StartOptions;
use pqformat::{Items, Text};

/// One line of a schedule.
#[derive(Debug, Drop)]
pub enum Event {
    /// What a session does in the transaction of this name.
    Session(Text, SessionStep),
    /// `note 'prefix' 'content'`: a session puts a message into the log that is of no transaction. Its content is the text's
    /// bytes.
    Note(Text, Text),
    /// What happens at the connection of this name.
    Connection(Text, ConnectionStep),
    /// `slot NAME`: a slot is created at the log's end.
    Slot(Text),
    /// `forget`: the log gives back what no slot, no connection and no transaction needs.
    Forget,
    /// `front`: asks how much of the log was given back.
    Front,
}

/// What a session does in a transaction T.
#[derive(Debug, Drop)]
pub enum SessionStep {
    /// `begin T`: the transaction begins.
    Begin,
    /// `insert T TABLE (row)`: the table's name is schema, a dot and name.
    Insert(Text, Items<Literal>),
    /// `update T TABLE (key) (row)`: the key has a value for each column of the primary key, in table order.
    Update(Text, Items<Literal>, Items<Literal>),
    /// `delete T TABLE (key)`
    Delete(Text, Items<Literal>),
    /// `truncate T TABLE ..`: one table or more.
    Truncate(Items<Text>),
    /// `message T 'prefix' 'content'`: a message goes into the log with the transaction. Its content is the text's bytes.
    Message(Text, Text),
    /// `savepoint T`
    Savepoint,
    /// `rollback T N`: N is the savepoint's depth, 1 the outermost.
    Rollback(u32),
    /// `release T N`
    Release(u32),
    /// `commit T TIME`: in microseconds since 2000-01-01.
    Commit(i64),
    /// `abort T`
    Abort,
}

/// What happens at a connection C, which has a sender, and a subscriber at its other end.
#[derive(Debug, Drop)]
pub enum ConnectionStep {
    /// `start C SLOT POSITION PUB,PUB`, or the same with the word `messages` after it: a sender starts. The slot `-` is
    /// none.
    Start(Text, u64, StartOptions),
    /// `read C MAX CLOCK`: up to MAX records are fetched and fed.
    Read(u32, i64),
    /// `keepalive C CLOCK`
    Keepalive(i64),
    /// `drain C N`: up to N bytes go from the sender into the pipe.
    Drain(u32),
    /// `deliver C N`: up to N bytes go from the pipe to the subscriber.
    Deliver(u32),
    /// `status C CLOCK`: the subscriber puts a status into the pipe back.
    Status(i64),
    /// `flushed C NUMBER`: the same at clock 0, with this number as what it has flushed.
    Flushed(u64),
    /// `ack C`: the publisher takes the next status from the pipe back.
    Ack,
    /// `cut C`: the sender ends, both pipes lose what they hold, and the subscriber reconnects.
    Cut,
}

/// A value of a row as a schedule writes it. An integer takes the kind of its column.
#[derive(Debug, Drop)]
pub enum Literal {
    Null,
    Bool(bool),
    Integer(i64),
    /// An integer that no column can hold.
    Huge,
    Text(Text),
}
