//! The lines of Begin, Commit and Message, and the last one.

ghost use Rattle.std.specs.Prelude.{◌≡◌, [], ◌∷◌, ◌++◌, IfOk, OnOk, codes, decimal};
ghost use Rattle.std.specs.Str.{is_utf8};
ghost use Rattle.json.specs.Token.{begin_object, end_object, key, number, string};
ghost use Rattle.message_lines.specs.Line.{line_of};
ghost use Rattle.replcmd.specs.Position.{position_text};
ghost use Rattle.message_lines.specs.Marks.{begin_json, commit_json, content_key, content_text, message_json, summary_json};

use crate::parts::members::{
    closed, opened, put_number, put_position, put_text, put_time, put_truth,
};
use hex::encode;
use json::Writer;
use pgoutput::{Begin, Commit, Message};
use std::alloc::{AllocError, Global};
use std::str;

/// The line of a Begin; `AllocError` where memory for it is refused.
pub fn begin_line(alloc: Global, message: &Begin) -> Result<Vec<u8>, AllocError>
    ensures { IfOk result (λ line. line.items ≡ line_of (begin_json message.now)) }
{
    let mut out = opened(alloc, "B")?;
    put_number(&mut out, "xid", u64::from(message.xid))?;
    put_position(alloc, &mut out, "lsn", message.position)?;
    put_time(&mut out, "timestamp", message.time)?;
    closed(out)
}

/// The line of a Commit; `AllocError` where memory for it is refused.
pub fn commit_line(alloc: Global, message: &Commit) -> Result<Vec<u8>, AllocError>
    ensures { IfOk result (λ line. line.items ≡ line_of (commit_json message.now)) }
{
    let mut out = opened(alloc, "C")?;
    put_position(alloc, &mut out, "lsn", message.position)?;
    put_position(alloc, &mut out, "nextlsn", message.end)?;
    put_time(&mut out, "timestamp", message.time)?;
    closed(out)
}

/// The line of a Message. Where its content is no text, that stands there in hexadecimal. `AllocError` where memory for it is
/// refused.
pub fn message_line(alloc: Global, message: &Message) -> Result<Vec<u8>, AllocError>
    ensures { IfOk result (λ line. line.items ≡ line_of (message_json message.now)) }
{
    let mut out = opened(alloc, "M")?;
    put_truth(&mut out, "transactional", message.is_transactional)?;
    put_position(alloc, &mut out, "lsn", message.position)?;
    put_text(&mut out, "prefix", message.prefix.as_str())?;
    put_content(alloc, &mut out, message.content.as_slice())?;
    closed(out)
}

#[tactic(auto, using(crate::proofs::Contents::content_is_text, crate::proofs::Contents::content_is_none))]
fn put_content(alloc: Global, out: &mut Writer, content: &[u8]) -> Result<(), AllocError>
    ensures tokens { OnOk result
        (out.new.tokens
        ≡ out.old.tokens ++ key (content_key (is_utf8 content.now))
        ∷ string (content_text (is_utf8 content.now) content.now) ∷ []) }
    ensures before { out.new.before ≡ out.old.before }
{
    match str::from_utf8(content) {
        Ok(text) => put_text(out, "content", text),
        Err(_) => {
            let digits = encode(alloc, content)?;
            put_text(out, "contenthex", digits.as_str())
        }
    }
}

/// The line after all others: how many transactions and changes they tell, and the position where a follower goes on.
/// `AllocError` where memory for it is refused.
pub fn summary_line(
    alloc: Global,
    transactions: u32,
    changes: u64,
    position: u64,
) -> Result<Vec<u8>, AllocError>
    ensures { IfOk result
        (λ line. line.items ≡ line_of (summary_json transactions changes position)) }
{
    let mut out = Writer::new(Vec::new(alloc));
    put_summary(alloc, &mut out, transactions, changes, position)?;
    closed(out)
}

fn put_summary(
    alloc: Global,
    out: &mut Writer,
    transactions: u32,
    changes: u64,
    position: u64,
) -> Result<(), AllocError>
    ensures tokens { OnOk result
        (out.new.tokens
        ≡ out.old.tokens ++ begin_object ∷ key (codes "summary") ∷ begin_object
        ∷ key (codes "transactions") ∷ number (decimal transactions) ∷ key (codes "changes")
        ∷ number (decimal changes) ∷ key (codes "lsn") ∷ string (position_text position)
        ∷ end_object ∷ []) }
    ensures before { out.new.before ≡ out.old.before }
{
    out.begin_object()?;
    out.key("summary")?;
    out.begin_object()?;
    put_number(out, "transactions", u64::from(transactions))?;
    put_number(out, "changes", changes)?;
    put_position(alloc, out, "lsn", position)?;
    out.end_object()?;
    Ok(())
}
