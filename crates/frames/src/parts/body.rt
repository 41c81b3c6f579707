//! Bodies that are read whole: first their parts, with nothing left over, then their texts, and only then is one copied.

ghost use Rattle.std.specs.Prelude.{◌≡◌, Err, IsOk};
ghost use Rattle.std.specs.Str.{is_utf8};
ghost use Rattle.frames.specs.Body.{nothing_left, checked_text, whole, always, nothing_at, text_at};
ghost use Rattle.frames.specs.Frame.{Gives};
ghost use Rattle.frames.specs.Raw.{as_text};

use crate::fault::FrameFault;
use crate::parts::field::string;
use pqformat::{Cursor, Text, utf8_of};
use std::alloc::Global;

/// That nothing is left over.
pub(crate) fn end_of(cursor: &Cursor<'_>) -> Result<(), FrameFault>
    ensures { result ≡ nothing_left cursor.now }
{
    if cursor.rest().is_empty() {
        Ok(())
    } else {
        Err(FrameFault::BadBody)
    }
}

pub(crate) fn is_valid_text(bytes: &[u8]) -> bool
    ensures { result ≡ is_utf8 bytes.now }
{
    utf8_of(bytes).is_some()
}

/// The bytes as a text, which isn't copied yet.
pub(crate) fn judged(bytes: &[u8]) -> Result<&str, FrameFault>
    ensures { as_text result ≡ checked_text is_utf8 bytes.now }
{
    utf8_of(bytes).ok_or(FrameFault::NotUtf8)
}

pub(crate) fn text_of(alloc: Global, bytes: &[u8]) -> Result<Text, FrameFault>
    ensures exact { Gives result (checked_text is_utf8 bytes.now) }
    ensures memory { result ≡ Err FrameFault.Memory → IsOk (checked_text is_utf8 bytes.now) }
{
    let text = judged(bytes)?;
    Ok(Text::copy_of(alloc, text)?)
}

/// A body of one text.
pub(crate) fn only_text(alloc: Global, body: &[u8]) -> Result<Text, FrameFault>
    ensures exact { Gives result (whole is_utf8 (text_at body.now)) }
    ensures memory { result ≡ Err FrameFault.Memory → IsOk (whole is_utf8 (text_at body.now)) }
{
    let mut cursor = Cursor::new(body);
    let text = string(&mut cursor)?;
    end_of(&cursor)?;
    text_of(alloc, text)
}

/// A body of nothing.
pub(crate) fn nothing_of(body: &[u8]) -> Result<(), FrameFault>
    ensures { result ≡ whole always (nothing_at body.now) }
{
    end_of(&Cursor::new(body))
}
