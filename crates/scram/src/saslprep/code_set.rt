//! Sets of code points.

ghost use Rattle.std.specs.Prelude.{◌≡◌};
ghost use Rattle.scram.specs.CodeSets.{has_any, is_in};

/// Whether a code point is in the set that begins and ends, in turn, at these numbers.
pub(crate) fn is_in(set: &[u32], code: char) -> bool
    ensures { result ≡ is_in set.now code }
{
    let mut is_in = false;
    for bound in set {
        if (code as u32) < *bound {
            break;
        }
        is_in = !is_in;
    }
    is_in
}

/// Whether one of these is in the set.
pub(crate) fn has_any(set: &[u32], codes: &[char]) -> bool
    ensures { result ≡ has_any set.now codes.now }
{
    for code in codes {
        if is_in(set, *code) {
            return true;
        }
    }
    false
}
