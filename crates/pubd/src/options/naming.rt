//! The text by which a server names its system to clients.

use pqformat::Text;
use std::alloc::{AllocError, Global};
use std::io;
use std::random::RandomSource;

/// What a configuration has in the place of the text where one is to be chosen at each start.
const RANDOM: &str = "random";

/// The text of a configuration, or a number that is chosen anew, of 63 bits, so that it fits where clients keep one with a sign.
/// The system's error where no random bytes are to be had, or `OutOfMemory`.
pub fn system_name<R: RandomSource>(source: &R, alloc: Global, text: Text) -> io::Result<Text> {
    match text.as_str() {
        RANDOM => Ok(Text::new(number_of(alloc, drawn(source)?)?)),
        _ => Ok(text),
    }
}

fn drawn<R: RandomSource>(source: &R) -> io::Result<u64> {
    let mut bytes = [0; 8];
    source.fill_bytes(&mut bytes)?;
    Ok(u64::from_le_bytes(bytes) >> 1)
}

fn number_of(alloc: Global, number: u64) -> Result<String, AllocError> {
    number.to_string(alloc)
}
