//! The members of the object that a line is.

ghost use Rattle.std.specs.Prelude.{◌≡◌, [], ◌∷◌, ◌++◌, decimal, codes, IfOk, OnOk};
ghost use Rattle.std.specs.Fmt.{signed_decimal};
ghost use Rattle.json.specs.Print.{print};
ghost use Rattle.json.specs.Token.{begin_object, end_object, key, string, number, boolean};
ghost use Rattle.replcmd.specs.Position.{position_text};

use json::Writer;
use replcmd::write_position;
use std::alloc::{AllocError, Global};

/// A line that is begun: an object that tells what happened.
pub(crate) fn opened(alloc: Global, action: &str) -> Result<Writer, AllocError>
    ensures tokens { IfOk result
        (λ out. out.tokens ≡ begin_object ∷ key (codes "action") ∷ string action.now ∷ []) }
    ensures before { IfOk result (λ out. out.before ≡ []) }
{
    let mut out = Writer::new(Vec::new(alloc));
    out.begin_object()?;
    put_text(&mut out, "action", action)?;
    Ok(out)
}

/// The line, ended.
pub(crate) fn closed(writer: Writer) -> Result<Vec<u8>, AllocError>
    requires { writer.before ≡ [] }
    ensures { IfOk result
        (λ line. line.items ≡ print (writer.tokens ++ end_object ∷ []) ++ 10 ∷ []) }
{
    let mut out = writer;
    out.end_object()?;
    let mut line = out.into_inner();
    line.push(b'\n')?;
    Ok(line)
}

/// A member whose value is a text.
pub(crate) fn put_text(out: &mut Writer, name: &str, text: &str) -> Result<(), AllocError>
    ensures tokens { OnOk result
        (out.new.tokens ≡ out.old.tokens ++ key name.now ∷ string text.now ∷ []) }
    ensures before { out.new.before ≡ out.old.before }
{
    out.key(name)?;
    out.string(text)?;
    Ok(())
}

pub(crate) fn put_number(out: &mut Writer, name: &str, value: u64) -> Result<(), AllocError>
    ensures tokens { OnOk result
        (out.new.tokens ≡ out.old.tokens ++ key name.now ∷ number (decimal value) ∷ []) }
    ensures before { out.new.before ≡ out.old.before }
{
    out.key(name)?;
    out.u64(value)?;
    Ok(())
}

/// A time, in microseconds since 2000-01-01.
pub(crate) fn put_time(out: &mut Writer, name: &str, time: i64) -> Result<(), AllocError>
    ensures tokens { OnOk result
        (out.new.tokens ≡ out.old.tokens ++ key name.now ∷ number (signed_decimal time) ∷ []) }
    ensures before { out.new.before ≡ out.old.before }
{
    out.key(name)?;
    out.i64(time)?;
    Ok(())
}

pub(crate) fn put_truth(out: &mut Writer, name: &str, truth: bool) -> Result<(), AllocError>
    ensures tokens { OnOk result
        (out.new.tokens ≡ out.old.tokens ++ key name.now ∷ boolean truth ∷ []) }
    ensures before { out.new.before ≡ out.old.before }
{
    out.key(name)?;
    out.boolean(truth)?;
    Ok(())
}

/// A position of the log, as PostgreSQL prints it (PostgreSQL 15, 8.20).
pub(crate) fn put_position(
    alloc: Global,
    out: &mut Writer,
    name: &str,
    position: u64,
) -> Result<(), AllocError>
    ensures tokens { OnOk result
        (out.new.tokens ≡ out.old.tokens ++ key name.now ∷ string (position_text position) ∷ []) }
    ensures before { out.new.before ≡ out.old.before }
{
    let text = write_position(alloc, position)?;
    put_text(out, name, text.as_str())?;
    Ok(())
}
