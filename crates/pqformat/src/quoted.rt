//! A text in quotes, from after the quote that opens it.

ghost use Rattle.std.specs.Prelude.{◌≡◌, ◌≤◌, ◌∷◌, [], IfOk, IfSome, Some, MatchOption, length, false};
ghost use Rattle.pqformat.specs.Quoting.{in_front, lent_items, quoted_at};

use std::alloc::{AllocError, Global};

/// Where a text in quotes goes on after this byte: a quote goes on after the second of two, and else closes the text.
fn goes_on(quote: u8, b: u8, tail: &[u8]) -> Option<&[u8]>
    ensures goes { MatchOption result (quoted_at false quote (b ∷ tail.now) ≡ Some ([], tail.now))
        (λ more. quoted_at false quote (b ∷ tail.now)
        ≡ in_front (b ∷ []) (quoted_at false quote more.now)) }
    ensures shorter { IfSome result (λ more. length more.now ≤ length tail.now) }
{
    if b != quote {
        return Some(tail);
    }
    let (c, more) = tail.split_first()?;
    if *c == quote { Some(more) } else { None }
}

/// The bytes that are meant, up to the quote that closes them, and what follows that; None where no quote closes them.
/// `AllocError` where memory for them is refused.
pub fn quoted_bytes(
    alloc: Global,
    quote: u8,
    text: &[u8],
) -> Result<Option<(Vec<u8>, &[u8])>, AllocError>
    ensures { IfOk result (λ x. lent_items x ≡ quoted_at false quote text.now) }
{
    let mut found = Vec::new(alloc);
    let mut rest = text;
    while let Some((b, tail)) = rest.split_first() {
        let Some(more) = goes_on(quote, *b, tail) else {
            return Ok(Some((found, tail)));
        };
        found.push(*b)?;
        rest = more;
    }
    Ok(None)
}

/// What is left of a text whose last quote is never closed: nothing.
pub fn nothing_of(text: &[u8]) -> &[u8]
    ensures { result.now ≡ [] }
{
    let (_, end) = text.split_at(text.len());
    end
}
