//! The lines of changes.

ghost use Rattle.std.specs.Prelude.{◌≡◌, [], ◌∷◌, ◌++◌, IfOk, OnOk};
ghost use Rattle.json.specs.Token.{key};
ghost use Rattle.json.specs.Tree.{json_tokens};
ghost use Rattle.message_lines.specs.Line.{line_of};
ghost use Rattle.message_lines.specs.Changes.{change_front, delete_json, insert_json, old_json, old_tokens, truncate_json, update_json};
ghost use Rattle.std.specs.Prelude.{codes};

use crate::fault::LineFault;
use crate::parts::members::{closed, opened, put_position, put_text};
use crate::parts::rows::put_row;
use crate::parts::told_values::ToldValues;
use json::Writer;
use pgoutput::{Delete, Insert, OldTuple, Relation, Update};
use std::alloc::{AllocError, Global};

/// The line of an Insert of this table, which `lsn` is told with. A row of another count of values than the table has columns
/// is `Shape`. Or `Memory`.
pub fn insert_line(
    alloc: Global,
    lsn: u64,
    relation: &Relation,
    message: &Insert,
) -> Result<Vec<u8>, LineFault>
    ensures { IfOk result
        (λ line. line.items ≡ line_of (insert_json lsn relation.now message.now)) }
{
    let mut out = change(alloc, "I", lsn, relation)?;
    put_row(
        alloc,
        &mut out,
        "columns",
        ToldValues::Whole,
        relation,
        message.new.as_slice(),
    )?;
    Ok(closed(out)?)
}

/// The line of an Update, with what was sent of the old row. A row of another count of values than the table has columns is
/// `Shape`. Or `Memory`.
#[tactic(auto, using(crate::proofs::Olds::old_put))]
pub fn update_line(
    alloc: Global,
    lsn: u64,
    relation: &Relation,
    message: &Update,
) -> Result<Vec<u8>, LineFault>
    ensures { IfOk result
        (λ line. line.items ≡ line_of (update_json lsn relation.now message.now)) }
{
    let mut out = change(alloc, "U", lsn, relation)?;
    put_row(
        alloc,
        &mut out,
        "columns",
        ToldValues::Whole,
        relation,
        message.new.as_slice(),
    )?;
    put_if_any(alloc, &mut out, relation, &message.old)?;
    Ok(closed(out)?)
}

/// The line of a Delete. A row of another count of values than the table has columns is `Shape`. Or `Memory`.
pub fn delete_line(
    alloc: Global,
    lsn: u64,
    relation: &Relation,
    message: &Delete,
) -> Result<Vec<u8>, LineFault>
    ensures { IfOk result
        (λ line. line.items ≡ line_of (delete_json lsn relation.now message.now)) }
{
    let mut out = change(alloc, "D", lsn, relation)?;
    put_old(alloc, &mut out, relation, &message.old)?;
    Ok(closed(out)?)
}

/// The line of one table of a Truncate. `AllocError` where memory for it is refused.
pub fn truncate_line(alloc: Global, lsn: u64, relation: &Relation) -> Result<Vec<u8>, AllocError>
    ensures { IfOk result (λ line. line.items ≡ line_of (truncate_json lsn relation.now)) }
{
    let out = change(alloc, "T", lsn, relation)?;
    closed(out)
}

/// What the line of a change begins with.
fn change(alloc: Global, action: &str, lsn: u64, relation: &Relation) -> Result<Writer, AllocError>
    ensures tokens { IfOk result (λ out. out.tokens ≡ change_front action.now lsn relation.now) }
    ensures before { IfOk result (λ out. out.before ≡ []) }
{
    let mut out = opened(alloc, action)?;
    put_position(alloc, &mut out, "lsn", lsn)?;
    put_text(&mut out, "schema", relation.namespace.as_str())?;
    put_text(&mut out, "table", relation.name.as_str())?;
    Ok(out)
}

fn put_if_any(
    alloc: Global,
    out: &mut Writer,
    relation: &Relation,
    old: &Option<OldTuple>,
) -> Result<(), LineFault>
    ensures tokens { OnOk result
        (out.new.tokens ≡ out.old.tokens ++ old_tokens relation.now old.now) }
    ensures before { out.new.before ≡ out.old.before }
{
    match old {
        Some(old) => put_old(alloc, out, relation, old),
        None => Ok(()),
    }
}

fn put_old(
    alloc: Global,
    out: &mut Writer,
    relation: &Relation,
    old: &OldTuple,
) -> Result<(), LineFault>
    ensures tokens { OnOk result
        (out.new.tokens
        ≡ out.old.tokens ++ key (codes "identity")
        ∷ json_tokens (old_json relation.now old.now)) }
    ensures before { out.new.before ≡ out.old.before }
{
    match old {
        OldTuple::Key(row) => put_row(
            alloc,
            out,
            "identity",
            ToldValues::Key,
            relation,
            row.as_slice(),
        ),
        OldTuple::Full(row) => put_row(
            alloc,
            out,
            "identity",
            ToldValues::Whole,
            relation,
            row.as_slice(),
        ),
    }
}
