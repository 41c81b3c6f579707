//! What is printed of a run: its refusals and fronts, what each start of a sender produced, and how far its subscribers are.

use crate::printed::answer::Answer;
use replcmd::write_position;
use std::alloc::Global;
use std::io;
use std::io::Write;

/// For each refused event the number of its line and its code, as in `7 S1`; for each that asked for the front of the log how many of its
/// records were given back, as in `7 front 12`. The lines and the answers are those of the same events, in order. It fails as the output
/// does.
pub fn write_answers<W: Write>(
    output: &mut W,
    lines: &[usize],
    answers: &[Answer],
) -> io::Result<()> {
    for (line, answer) in lines.iter().zip(answers) {
        if let Answer::Front(count) = answer {
            writeln!(output, "{line} front {count}")?;
        }
        if let Some(code) = answer.code() {
            writeln!(output, "{line} {code}")?;
        }
    }
    Ok(())
}

/// A connection's name, a colon, and the bytes that one start of its sender produced, in lower-case hexadecimal. It fails as
/// the output does, or where memory is refused.
pub fn write_stream<W: Write>(
    alloc: Global,
    output: &mut W,
    connection: &str,
    produced: &[u8],
) -> io::Result<()> {
    let digits = hex::encode(alloc, produced)?;
    writeln!(output, "{connection}:{digits}")
}

/// A slot, with the position that is confirmed of it. It fails as the output does, or where memory is refused.
pub fn write_slot<W: Write>(
    alloc: Global,
    output: &mut W,
    slot: &str,
    confirmed: u64,
) -> io::Result<()> {
    let confirmed = write_position(alloc, confirmed)?;
    writeln!(output, "slot {slot} {confirmed}")
}

/// A subscriber, by its connection's name, with its position and how many transactions it has applied. It fails as the output
/// does, or where memory is refused.
pub fn write_subscriber<W: Write>(
    alloc: Global,
    output: &mut W,
    connection: &str,
    position: u64,
    applied: usize,
) -> io::Result<()> {
    let position = write_position(alloc, position)?;
    writeln!(output, "sub {connection} {position} {applied}")
}
