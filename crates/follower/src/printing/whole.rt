//! Whole lines.

ghost use Rattle.std.specs.Prelude.{◌≡◌, [], ◌∷◌, ◌++◌, ℕ, List, None, IfSome};
ghost use Rattle.std.specs.Str.{IsUtf8};

use std::str;

/// The line without its end; None where that isn't there, or no text is before it.
pub(crate) fn whole(line: &[u8]) -> Option<&str>
    ensures found { IfSome result (λ text. line.now ≡ text.now ++ 10 ∷ []) }
    ensures none { result ≡ None → (text : List ℕ) → IsUtf8 text → line.now ≡ text ++ 10 ∷ [] → ⊥ }
{
    let (last, front) = line.split_last()?;
    if *last != b'\n' {
        return None;
    }
    str::from_utf8(front).ok()
}
