//! Texts in quotes: string literals, and names.

ghost use Rattle.std.specs.Prelude.{◌≡◌, ◌<◌, IfOk};
ghost use Rattle.std.specs.Str.{IsUtf8};
ghost use Rattle.pqformat.specs.Quoting.{lent_text};
ghost use Rattle.server.specs.Reading.{quoted_front};

use pqformat::Text;
use std::alloc::{AllocError, Global};

/// The quote round string literals. One that is meant stands twice.
pub(crate) const LITERAL_QUOTE: u8 = b'\'';

/// The quote round names.
pub(crate) const NAME_QUOTE: u8 = b'"';

/// What stands twice where it is meant, in a literal after an E.
pub(crate) const BACKSLASH: u8 = b'\\';

/// The text in quotes at the front, and what follows it; None where none stands there, or no quote closes it.
pub(crate) fn quoted_of(
    alloc: Global,
    quote: u8,
    text: &[u8],
) -> Result<Option<(Text, &[u8])>, AllocError>
    requires ascii { quote < 128 }
    requires utf8 { IsUtf8 text.now }
    ensures { IfOk result (λ found. lent_text found ≡ quoted_front quote text.now) }
{
    let Some((first, inside)) = text.split_first() else {
        return Ok(None);
    };
    if *first != quote {
        return Ok(None);
    }
    replcmd::quoted_of(alloc, quote, inside)
}
