//! A message as a line of text.

ghost use Rattle.std.specs.Prelude.{◌≡◌, IfOk, string_bytes};
ghost use Rattle.message_lines.specs.Texts.{IsTextOf, begin_text, commit_text};

use crate::parts::cell_text::{Cells, Hex, Name, Quoted, old_letter};
use pgoutput::{
    Begin, Column, Commit, Delete, Identity, Insert, Logical, Message, NOT_TRANSACTIONAL, Relation,
    TRANSACTIONAL, Truncate, TruncateOptions, Update,
};
use replcmd::write_position;
use std::alloc::{AllocError, Global};

/// The message as one line of text, without a line end.
///
/// ```text
/// BEGIN xid position time
/// COMMIT position end time
/// RELATION oid namespace.name identity name:type* ..    a column with * is one of the identity
/// INSERT oid N(cells)
/// UPDATE oid N(cells)    before the N also K(cells) or O(cells), and a space
/// DELETE oid K(cells)    or O(cells)
/// TRUNCATE options oid ..
/// MESSAGE flags position prefix content
/// ```
///
/// Cells stand between commas: null, unchanged, or a text in single quotes with each quote in it doubled. In texts and names a
/// backslash is doubled, and a control character (below 32, and 127) is `\x` and two hexadecimal digits. Positions are as
/// `16/B374D848`, the identity is `d`, `n`, `f` or `i`, and the options are the sum of 1 for CASCADE and 2 for RESTART IDENTITY. The flags of a Message are 1 in a
/// transaction, else 0; its prefix is a text in single quotes, its content in hexadecimal.
///
/// `AllocError` where memory for it is refused.
pub fn render(alloc: Global, message: &Logical) -> Result<String, AllocError>
    ensures { IfOk result (λ line. IsTextOf message.now (string_bytes line)) }
{
    match message {
        Logical::Begin(message) => render_begin(alloc, message),
        Logical::Commit(message) => render_commit(alloc, message),
        Logical::Relation(message) => render_relation(alloc, message),
        Logical::Insert(message) => render_insert(alloc, message),
        Logical::Update(message) => render_update(alloc, message),
        Logical::Delete(message) => render_delete(alloc, message),
        Logical::Truncate(message) => render_truncate(alloc, message),
        Logical::Message(message) => render_message(alloc, message),
    }
}

fn render_begin(alloc: Global, message: &Begin) -> Result<String, AllocError>
    ensures { IfOk result (λ line. string_bytes line
        ≡ begin_text message.now.xid message.now.position message.now.time) }
{
    let xid = message.xid;
    let position = write_position(alloc, message.position)?;
    let time = message.time;
    format!(in alloc; "BEGIN {xid} {position} {time}")
}

fn render_commit(alloc: Global, message: &Commit) -> Result<String, AllocError>
    ensures { IfOk result (λ line. string_bytes line
        ≡ commit_text message.now.position message.now.end message.now.time) }
{
    let position = write_position(alloc, message.position)?;
    let end = write_position(alloc, message.end)?;
    let time = message.time;
    format!(in alloc; "COMMIT {position} {end} {time}")
}

fn render_relation(alloc: Global, message: &Relation) -> Result<String, AllocError> {
    let oid = message.oid;
    let namespace = Name(message.namespace.as_str());
    let name = Name(message.name.as_str());
    let identity = identity_letter(message.identity);
    let mut line = format!(in alloc; "RELATION {oid} {namespace}.{name} {identity}")?;
    for column in message.columns.as_slice() {
        add_column(&mut line, column)?;
    }
    Ok(line)
}

fn identity_letter(identity: Identity) -> char {
    match identity {
        Identity::Default => 'd',
        Identity::Nothing => 'n',
        Identity::Full => 'f',
        Identity::Index => 'i',
    }
}

fn add_column(line: &mut String, column: &Column) -> Result<(), AllocError> {
    let name = Name(column.name.as_str());
    let kind = column.kind;
    let star = if column.is_key { "*" } else { "" };
    write!(line, " {name}:{kind}{star}")
}

fn render_insert(alloc: Global, message: &Insert) -> Result<String, AllocError> {
    let oid = message.oid;
    let new = Cells(message.new.as_slice());
    format!(in alloc; "INSERT {oid} N({new})")
}

fn render_update(alloc: Global, message: &Update) -> Result<String, AllocError> {
    let mut line = format!(in alloc; "UPDATE {}", message.oid)?;
    if let Some(old) = &message.old {
        let letter = old_letter(old);
        let cells = Cells::of_old(old);
        write!(line, " {letter}({cells})")?;
    }
    let new = Cells(message.new.as_slice());
    write!(line, " N({new})")?;
    Ok(line)
}

fn render_delete(alloc: Global, message: &Delete) -> Result<String, AllocError> {
    let oid = message.oid;
    let letter = old_letter(&message.old);
    let cells = Cells::of_old(&message.old);
    format!(in alloc; "DELETE {oid} {letter}({cells})")
}

fn render_truncate(alloc: Global, message: &Truncate) -> Result<String, AllocError> {
    let mut line = format!(in alloc; "TRUNCATE {}", options_number(message.options))?;
    for oid in message.oids.as_slice() {
        write!(line, " {oid}")?;
    }
    Ok(line)
}

fn options_number(options: TruncateOptions) -> u8 {
    match (options.cascade, options.restart_identity) {
        (false, false) => 0,
        (true, false) => 1,
        (false, true) => 2,
        (true, true) => 3,
    }
}

fn render_message(alloc: Global, message: &Message) -> Result<String, AllocError> {
    let flags = if message.is_transactional {
        TRANSACTIONAL
    } else {
        NOT_TRANSACTIONAL
    };
    let position = write_position(alloc, message.position)?;
    let prefix = Quoted(message.prefix.as_str());
    let content = Hex(message.content.as_slice());
    format!(in alloc; "MESSAGE {flags} {position} {prefix} {content}")
}
