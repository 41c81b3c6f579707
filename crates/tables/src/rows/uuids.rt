//! UUIDs: their halves, and the text of one.

ghost use Rattle.std.specs.Prelude.{◌≡◌, ◌*◌, ◌+◌, ◌^◌};
ghost use Rattle.tables.specs.Kinds.{uuid_of_text};

use uuid::Uuid;

/// The halves of a UUID, the higher first.
pub(crate) fn halves_of_uuid(n: u128) -> (u64, u64)
    ensures { result.0 * 2 ^ 64 + result.1 ≡ n }
{
    ((n / (1 << 64)) as u64, (n % (1 << 64)) as u64)
}

/// The UUID of these halves.
pub fn uuid_of_halves(high: u64, low: u64) -> u128
    ensures { result ≡ high * 2 ^ 64 + low }
{
    u128::from(high) * (1 << 64) + u128::from(low)
}

/// The UUID of a text in its plain form, as `6ba7b810-9dad-11d1-80b4-00c04fd430c8`, in either case. None of other texts, even
/// in the other forms that PostgreSQL takes (PostgreSQL 15, 8.12).
#[tactic(auto, unfolding(crate::specs::Kinds::uuid_of_text))]
pub fn uuid_of_text(text: &[u8]) -> Option<u128>
    ensures { result ≡ uuid_of_text text.now }
{
    if text.len() != 36 {
        return None;
    }
    match Uuid::try_parse_ascii(text) {
        Ok(uuid) => Some(uuid.as_u128()),
        Err(_) => None,
    }
}
