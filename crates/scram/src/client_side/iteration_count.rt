//! The iteration count of a server's first message.

ghost use Rattle.std.specs.Prelude.{◌≡◌, ◌<◌, IfSome};
ghost use Rattle.scram.specs.Challenges.{is_number, rounds_of};

use pqformat::decimal_of;

/// The most rounds that a client takes for a server: some seconds of work, and over two hundred times what PostgreSQL asks for.
pub const MOST_ROUNDS: u32 = 1_000_000;

/// How many rounds the text says, if so many are taken.
pub(crate) fn rounds_of(text: &[u8]) -> Option<u32>
    ensures value { result ≡ rounds_of text.now }
    ensures positive { IfSome result (λ rounds. 0 < rounds) }
{
    if !is_number(text) {
        return None;
    }
    match decimal_of(text) {
        Some(rounds) if 1 <= rounds && rounds <= u64::from(MOST_ROUNDS) => Some(rounds as u32),
        _ => None,
    }
}

fn is_number(text: &[u8]) -> bool
    ensures { result ≡ is_number text.now }
{
    text.iter().all(|b| 48 <= *b && *b <= 57)
}
