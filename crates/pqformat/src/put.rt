//! Writing the fields of a message at the end of a buffer, one call a field. Ok: the field's spelling stands at the end.
//! Refused, for want of memory: the buffer is as it was.

ghost use Rattle.std.specs.Prelude.{◌≡◌, ◌∷◌, ◌++◌, [], take, OnOk, OnErr};
ghost use Rattle.pqformat.specs.Fields.{int16, int32, int64, string};

use bytes::{BufMut, BytesMut};
use std::alloc::AllocError;

/// Adds a byte. `AllocError` where memory is refused; nothing is added then.
pub fn put_byte(out: &mut BytesMut, byte: u8) -> Result<(), AllocError>
    ensures ok { OnOk result (out.new.items ≡ out.old.items ++ byte ∷ []) }
    ensures err { OnErr result (out.new.items ≡ out.old.items) }
{
    out.put_u8(byte)
}

/// Adds two bytes, the highest first. `AllocError` where memory is refused; nothing is added then.
#[tactic(auto, unfolding(crate::specs::Fields::int16))]
pub fn put_int16(out: &mut BytesMut, number: u16) -> Result<(), AllocError>
    ensures ok { OnOk result (out.new.items ≡ out.old.items ++ int16 number) }
    ensures err { OnErr result (out.new.items ≡ out.old.items) }
{
    out.put_u16(number)
}

/// Adds four bytes, the highest first. `AllocError` where memory is refused; nothing is added then.
#[tactic(auto, unfolding(crate::specs::Fields::int32))]
pub fn put_int32(out: &mut BytesMut, number: u32) -> Result<(), AllocError>
    ensures ok { OnOk result (out.new.items ≡ out.old.items ++ int32 number) }
    ensures err { OnErr result (out.new.items ≡ out.old.items) }
{
    out.put_u32(number)
}

/// Adds eight bytes, the highest first. `AllocError` where memory is refused; nothing is added then.
#[tactic(auto, unfolding(crate::specs::Fields::int64))]
pub fn put_int64(out: &mut BytesMut, number: u64) -> Result<(), AllocError>
    ensures ok { OnOk result (out.new.items ≡ out.old.items ++ int64 number) }
    ensures err { OnErr result (out.new.items ≡ out.old.items) }
{
    out.put_u64(number)
}

/// Adds the bytes as they are. `AllocError` where memory is refused; nothing is added then.
pub fn put_bytes(out: &mut BytesMut, bytes: &[u8]) -> Result<(), AllocError>
    ensures ok { OnOk result (out.new.items ≡ out.old.items ++ bytes.now) }
    ensures err { OnErr result (out.new.items ≡ out.old.items) }
{
    out.put_slice(bytes)
}

/// Adds the text and a zero byte, both or neither. `AllocError` where memory is refused.
#[tactic(auto, using(crate::proofs::Putting::extends_more))]
pub fn put_string(out: &mut BytesMut, text: &str) -> Result<(), AllocError>
    ensures ok { OnOk result (out.new.items ≡ out.old.items ++ string text.now) }
    ensures err { OnErr result (out.new.items ≡ out.old.items) }
{
    let start = out.len();
    put_bytes(out, text.as_bytes())?;
    whole_or_nothing(put_byte(out, 0), start, out)
}

/// What a writer in place answered; where it was refused, what it added after `start` is cut off.
pub fn whole_or_nothing(
    written: Result<(), AllocError>,
    start: usize,
    out: &mut BytesMut,
) -> Result<(), AllocError>
    ensures same { result ≡ written }
    ensures ok { OnOk result (out.new.items ≡ out.old.items) }
    ensures err { OnErr result (out.new.items ≡ take start out.old.items) }
{
    if written.is_err() {
        out.truncate(start);
    }
    written
}
