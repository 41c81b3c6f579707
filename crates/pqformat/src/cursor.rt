//! Reading the fields of a message one after the other, from its front.

ghost use Rattle.std.specs.Prelude.{◌≡◌, ◌==◌, ◌<◌, length, position, IfSome, MatchOption, false, true};
ghost use Rattle.std.specs.Int.{w16, w32, w64};
ghost use Rattle.std.specs.Str.{is_utf8};
ghost use Rattle.pqformat.specs.Fields.{Moves, byte_at, bytes_at, number_at, string_at};

use std::marker::Model;
use std::str;

/// Reads fields from the front of a message, and copies nothing. Contracts see the bytes that are left.
///
/// `new` on the message's bytes; then one call a field, in the order of the message: `Some` is the field, and the cursor
/// stands after it; `None` is that it isn't there whole, and the cursor stands where it stood. At last `rest`, which is
/// empty where nothing follows the message.
#[derive(Debug, Drop)]
pub struct Cursor<'a> {
    bytes: &'a [u8],
}

impl<'a> Model for Cursor<'a> {
    ghost use Rattle.std.specs.Prelude.{List, ℕ};

    ghost Value = { List ℕ };

    ghost view = { λ c. c.bytes.now };
}

impl<'a> Cursor<'a> {
    pub fn new(bytes: &'a [u8]) -> Self
        ensures { result ≡ bytes.now }
    {
        Cursor { bytes }
    }

    /// The next byte; None where nothing is left.
    pub fn u8(&mut self) -> Option<u8>
        ensures { Moves (λ n. n) result self.old self.new (byte_at self.old) }
    {
        let (first, rest) = self.bytes.split_first()?;
        self.bytes = rest;
        Some(*first)
    }

    /// The next two bytes as a number, the highest first; None where fewer are left.
    pub fn u16(&mut self) -> Option<u16>
        ensures { Moves (λ n. n) result self.old self.new (number_at w16 self.old) }
    {
        let (front, rest) = self.bytes.split_first_chunk::<2>()?;
        self.bytes = rest;
        Some(u16::from_be_bytes(*front))
    }

    /// The next four bytes as a number, the highest first; None where fewer are left.
    pub fn u32(&mut self) -> Option<u32>
        ensures { Moves (λ n. n) result self.old self.new (number_at w32 self.old) }
    {
        let (front, rest) = self.bytes.split_first_chunk::<4>()?;
        self.bytes = rest;
        Some(u32::from_be_bytes(*front))
    }

    /// The next eight bytes as a number, the highest first; None where fewer are left.
    pub fn u64(&mut self) -> Option<u64>
        ensures { Moves (λ n. n) result self.old self.new (number_at w64 self.old) }
    {
        let (front, rest) = self.bytes.split_first_chunk::<8>()?;
        self.bytes = rest;
        Some(u64::from_be_bytes(*front))
    }

    /// The bytes before the next zero byte; moves past that byte too. None where no zero byte is left. It is a String of
    /// messages (PostgreSQL 15, 55.6 Message Data Types).
    pub fn cstr(&mut self) -> Option<&'a [u8]>
        ensures { Moves (λ s. s.now) result self.old self.new (string_at self.old) }
    {
        let end = zero_place(self.bytes)?;
        let (front, _) = self.bytes.split_at(end);
        let (_, rest) = self.bytes.split_at(end + 1);
        self.bytes = rest;
        Some(front)
    }

    /// The next `n` bytes; None where fewer are left.
    pub fn take(&mut self, n: usize) -> Option<&'a [u8]>
        ensures { Moves (λ s. s.now) result self.old self.new (bytes_at n self.old) }
    {
        let (front, rest) = self.bytes.split_at_checked(n)?;
        self.bytes = rest;
        Some(front)
    }

    /// What is left.
    pub fn rest(&self) -> &'a [u8]
        ensures { result.now ≡ self.now }
    {
        self.bytes
    }
}

fn zero_place(bytes: &[u8]) -> Option<usize>
    ensures value { result ≡ position (λ b. b == 0) bytes.now }
    ensures within { IfSome result (λ at. at < length bytes.now) }
{
    bytes.iter().position(|&b| b == 0)
}

/// The bytes as text; None where they aren't UTF-8.
#[tactic(auto, using(crate::proofs::Texts::valid_text, crate::proofs::Texts::invalid_text))]
pub fn utf8_of(bytes: &[u8]) -> Option<&str>
    ensures { MatchOption result (is_utf8 bytes.now ≡ false)
        (λ s. (s.now ≡ bytes.now) × (is_utf8 bytes.now ≡ true)) }
{
    str::from_utf8(bytes).ok()
}
