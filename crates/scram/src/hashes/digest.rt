//! Whether two digests are the same.

ghost use Rattle.std.specs.Prelude.{◌≡◌};
ghost use Rattle.std.specs.Str.{bytes_eq};
ghost use Rattle.scram.specs.Digests.{differing_bits};

use crate::hashes::hmac::DIGEST_BYTES;

/// Goes over all bytes, whatever the first difference is, so that who guesses learns nothing of how far a guess was right.
#[tactic(auto, using(crate::proofs::Differences::no_difference))]
pub(crate) fn is_same(left: &[u8; DIGEST_BYTES], right: &[u8; DIGEST_BYTES]) -> bool
    ensures { result ≡ bytes_eq left.now right.now }
{
    differing_bits(left.as_slice(), right.as_slice()) == 0
}

fn differing_bits(left: &[u8], right: &[u8]) -> u8
    ensures { result ≡ differing_bits left.now right.now }
{
    let pairs = left.iter().zip(right.iter());
    pairs.fold(0, |bits, (a, b)| bits | (*a ^ *b))
}
