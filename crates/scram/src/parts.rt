//! The parts of a text that a byte separates.

ghost use Rattle.std.specs.Prelude.{◌≡◌, ◌<◌, length, option_map, IfSome};
ghost use Rattle.scram.specs.Parts.{parted, place_of};

/// What stands before the first such byte, and what stands after it.
pub(crate) fn parted(text: &[u8], mark: u8) -> Option<(&[u8], &[u8])>
    ensures { option_map (λ parts. (parts.0.now, parts.1.now)) result ≡ parted mark text.now }
{
    match place_of(text, mark) {
        Some(at) => Some((&text[..at], &text[at + 1..])),
        None => None,
    }
}

fn place_of(text: &[u8], mark: u8) -> Option<usize>
    ensures place { result ≡ place_of mark text.now }
    ensures within { IfSome result (λ at. at < length text.now) }
{
    text.iter().position(|b| *b == mark)
}
