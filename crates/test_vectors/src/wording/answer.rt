//! How answers are written, and bytes are given.

use anyhow::Result;
use std::alloc::{AllocError, Global};
use std::fmt::{Debug, Display};

/// Adds what came of a call.
pub fn tell<T: Debug, E: Display>(answer: &mut String, came: &Result<T, E>) -> Result<()> {
    Ok(add_came(answer, came)?)
}

fn add_came<T: Debug, E: Display>(
    answer: &mut String,
    came: &Result<T, E>,
) -> Result<(), AllocError> {
    match came {
        Ok(value) => tell_value(answer, value),
        Err(fault) => tell_fault(answer, fault),
    }
}

/// Adds a fault alone.
pub fn tell_fault<E: Display>(answer: &mut String, fault: &E) -> Result<(), AllocError> {
    write!(answer, "! {fault}")
}

/// Adds a value alone.
pub fn tell_value<T: Debug>(answer: &mut String, value: &T) -> Result<(), AllocError> {
    write!(answer, "= {value:?}")
}

/// Adds a value after what stands there.
pub fn add_value<T: Debug>(answer: &mut String, value: &T) -> Result<(), AllocError> {
    write!(answer, " {value:?}")
}

/// Adds how a value is written, where that isn't as it was read.
pub fn tell_written(answer: &mut String, written: &[u8], read: &[u8]) -> Result<(), AllocError> {
    if written == read {
        return Ok(());
    }
    write!(answer, " ? written {written:?}")
}

/// The bytes that hexadecimal digits spell.
pub fn bytes_of(alloc: Global, digits: &str) -> Result<Vec<u8>> {
    Ok(hex::decode(alloc, digits)?)
}
