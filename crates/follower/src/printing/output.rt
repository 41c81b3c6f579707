//! What transactions are printed into.

ghost use Rattle.std.specs.Prelude.{◌≡◌, ℕ, List, Option, None, OnOk};
ghost use Rattle.std.specs.Io.KnownBytes.{Keeps};

use std::io;
use std::io::Write;

/// What transactions are printed into. What outlives its run keeps with them which system they came from.
pub trait Output: Write {
    /// What stands there for good, where that is known.
    ghost kept: { Self → Option (List ℕ) } = { λ _. None };

    /// The server says which system it is: the first that this run follows. Nothing was printed yet.
    fn keep_system(&mut self, system: &str) -> io::Result<()>
        ensures written { Keeps (Self.contents self.old) (Self.contents self.new) };

    /// A slot of this name is being made for a copy, or none is any more: what is left of one whose run ended is told to the next.
    fn note_copy(&mut self, slot: Option<&str>) -> io::Result<()>
        ensures written { Self.contents self.new ≡ Self.contents self.old }
        ensures kept { kept self.new ≡ kept self.old };

    /// All that was written stands there for good: no end of the run loses it.
    fn keep(&mut self) -> io::Result<()>
        ensures written { Keeps (Self.contents self.old) (Self.contents self.new) }
        ensures kept { OnOk result (kept self.new ≡ Self.contents self.new) };
}

/// What is printed into memory stands there as long as the program runs.
impl Output for Vec<u8> {
    ghost use Rattle.std.specs.Prelude.{Some};

    ghost kept = { λ lines. Some lines.items };

    fn keep_system(&mut self, _system: &str) -> io::Result<()> {
        Ok(())
    }

    fn note_copy(&mut self, _slot: Option<&str>) -> io::Result<()> {
        Ok(())
    }

    fn keep(&mut self) -> io::Result<()> {
        Ok(())
    }
}
