//! Writing fields at a place of a slice that has room for them. Each answers where the field ends.

ghost use Rattle.std.specs.Prelude.{◌+◌, ◌<◌, ◌≤◌, ◌∷◌, [], length};
ghost use Rattle.pqformat.specs.Fields.{int16, int32, int64};
ghost use Rattle.pqformat.specs.Writing.{Writes};

/// Writes the bytes as they are.
pub fn write_bytes(out: &mut [u8], at: usize, bytes: &[u8]) -> usize
    requires { at + length bytes.now ≤ length out.old }
    ensures { Writes at result out.old out.new bytes.now }
{
    let end = at + bytes.len();
    out[at..end].copy_from_slice(bytes);
    end
}

/// Writes a byte.
pub fn write_byte(out: &mut [u8], at: usize, byte: u8) -> usize
    requires { at < length out.old }
    ensures { Writes at result out.old out.new (byte ∷ []) }
{
    out[at] = byte;
    at + 1
}

/// Writes two bytes, the highest first.
#[tactic(auto, unfolding(crate::specs::Fields::int16))]
pub fn write_int16(out: &mut [u8], at: usize, number: u16) -> usize
    requires { at + 2 ≤ length out.old }
    ensures { Writes at result out.old out.new (int16 number) }
{
    write_bytes(out, at, &number.to_be_bytes())
}

/// Writes four bytes, the highest first.
#[tactic(auto, unfolding(crate::specs::Fields::int32))]
pub fn write_int32(out: &mut [u8], at: usize, number: u32) -> usize
    requires { at + 4 ≤ length out.old }
    ensures { Writes at result out.old out.new (int32 number) }
{
    write_bytes(out, at, &number.to_be_bytes())
}

/// Writes eight bytes, the highest first.
#[tactic(auto, unfolding(crate::specs::Fields::int64))]
pub fn write_int64(out: &mut [u8], at: usize, number: u64) -> usize
    requires { at + 8 ≤ length out.old }
    ensures { Writes at result out.old out.new (int64 number) }
{
    write_bytes(out, at, &number.to_be_bytes())
}
