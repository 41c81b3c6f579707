//! uuid (PostgreSQL 15, 8.12).

ghost use Rattle.std.specs.Prelude.{◌≡◌, IfOk};
ghost use Rattle.data_types.specs.Uuids.{hex_digits, is_hyphen_place, is_uuid_text, is_uuid_byte};

use crate::texts::bytea::is_lower_hex;
use std::alloc::{AllocError, Global};

fn is_hyphen_place(place: usize) -> bool
    ensures { result ≡ is_hyphen_place place }
{
    place == 8 || place == 13 || place == 18 || place == 23
}

fn is_uuid_byte(place: usize, b: u8) -> bool
    ensures { result ≡ is_uuid_byte place b }
{
    if is_hyphen_place(place) {
        b == b'-'
    } else {
        is_lower_hex(b)
    }
}

/// Whether the text is that of a uuid as it is sent: 32 digits in lower case, of which 8, 4, 4, 4 and 12 stand between hyphens.
pub(crate) fn is_uuid_text(text: &[u8]) -> bool
    ensures { result ≡ is_uuid_text text.now }
{
    let mut place = 0;
    let mut rest = text;
    while let Some((b, tail)) = rest.split_first() {
        if !is_uuid_byte(place, *b) {
            return false;
        }
        place += 1;
        rest = tail;
    }
    place == 36
}

/// The hexadecimal digits of a text, in lower case.
pub(crate) fn hex_digits(alloc: Global, text: &[u8]) -> Result<Vec<u8>, AllocError>
    ensures { IfOk result (λ digits. digits.items ≡ hex_digits text.now) }
{
    text.iter()
        .filter(|b| b.is_ascii_hexdigit())
        .map(|b| b.to_ascii_lowercase())
        .collect(alloc)
}
