//! The words that a program is called with.

use crate::fault::WordsFault;
use std::env;

/// The program's name as it was called, and the words after it.
pub fn arguments_of(rt: &HostRuntime) -> Result<Vec<String>, WordsFault> {
    let arguments = env::args(rt).map_err(WordsFault::Arguments)?;
    Ok(arguments.collect(rt.alloc())?)
}
