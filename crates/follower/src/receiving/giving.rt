//! Bytes that are given to a writer.

ghost use Rattle.std.specs.Prelude.{◌≡◌, ◌≤◌, IfOk, OnOk, length, take};
ghost use Rattle.std.specs.Io.KnownBytes.{Appends, WriteAppends};

use std::io;
use std::io::{ErrorKind, Write};

/// Writes all of the bytes, and answers how many the writer took, with its error where that isn't all of them. The turns are
/// counted, since a signal may end each: so many never come.
pub(crate) fn give<W: Write>(bytes: &[u8], to: &mut W) -> (usize, io::Result<()>)
    ensures within { result.0 ≤ length bytes.now }
    ensures taken { Appends (W.contents to.old) (W.contents to.new) (take result.0 bytes.now) }
    ensures ok { OnOk result.1 (result.0 ≡ length bytes.now) }
{
    let mut taken = 0;
    for _ in 0..u64::MAX {
        if taken == bytes.len() {
            return (taken, Ok(()));
        }
        match give_some(&bytes[taken..], to) {
            Ok(count) => taken += count,
            Err(fault) => return (taken, Err(fault)),
        }
    }
    (taken, Err(io::Error::from(ErrorKind::Interrupted)))
}

/// Writes some of the bytes: none only where a signal ended the write.
#[tactic(auto, using(crate::proofs::Given::none_given, crate::proofs::Given::kept_given))]
fn give_some<W: Write>(bytes: &[u8], to: &mut W) -> io::Result<usize>
    ensures within { IfOk result (λ count. count ≤ length bytes.now) }
    ensures taken { WriteAppends (W.contents to.old) (W.contents to.new) result bytes.now }
{
    match to.write(bytes) {
        Ok(0) => Err(io::Error::from(ErrorKind::WriteZero)),
        Err(fault) if fault.kind() == ErrorKind::Interrupted => Ok(0),
        written => written,
    }
}
