//! Frames and startups from the front of some bytes.

ghost use Rattle.std.specs.Prelude.{IfOk, IfSome};
ghost use Rattle.frames.specs.Frame.{FitsLength};
ghost use Rattle.frames.specs.Front.{front_body};
ghost use Rattle.frames.specs.Back.{back_body, HasCounts};

use crate::wording::answer::{tell, tell_written};
use anyhow::Result;
use bytes::BytesMut;
use frames::{
    Back, FrameFault, Front, read_back, read_front, read_startup, write_back, write_front,
};
use std::alloc::{AllocError, Global};

/// A startup is only read.
pub fn answer_startup(alloc: Global, bytes: &[u8], answer: &mut String) -> Result<()> {
    tell(answer, &read_startup(alloc, bytes))
}

pub fn answer_front(alloc: Global, bytes: &[u8], answer: &mut String) -> Result<()> {
    let came = read_front(alloc, bytes);
    add_front(alloc, &came, bytes, answer)
}

fn add_front(
    alloc: Global,
    came: &Result<Option<(Front, usize)>, FrameFault>,
    bytes: &[u8],
    answer: &mut String,
) -> Result<()>
    requires { IfOk came.now (λ found. IfSome found (λ f. FitsLength (front_body f.0))) }
{
    tell(answer, came)?;
    match came {
        Ok(Some((frame, size))) => Ok(tell_front(alloc, frame, front_of(bytes, *size), answer)?),
        _ => Ok(()),
    }
}

pub fn answer_back(alloc: Global, bytes: &[u8], answer: &mut String) -> Result<()> {
    let came = read_back(alloc, bytes);
    add_back(alloc, &came, bytes, answer)
}

fn add_back(
    alloc: Global,
    came: &Result<Option<(Back, usize)>, FrameFault>,
    bytes: &[u8],
    answer: &mut String,
) -> Result<()>
    requires { IfOk came.now
        (λ found. IfSome found (λ f. FitsLength (back_body f.0) × HasCounts f.0)) }
{
    tell(answer, came)?;
    match came {
        Ok(Some((frame, size))) => Ok(tell_back(alloc, frame, front_of(bytes, *size), answer)?),
        _ => Ok(()),
    }
}

fn front_of(bytes: &[u8], size: usize) -> &[u8] {
    bytes.split_at_checked(size).unwrap_or((&[], &[])).0
}

fn tell_front(
    alloc: Global,
    frame: &Front,
    read: &[u8],
    answer: &mut String,
) -> Result<(), AllocError>
    requires { FitsLength (front_body frame.now) }
{
    let mut written = BytesMut::new(alloc);
    write_front(frame, &mut written)?;
    tell_written(answer, written.as_slice(), read)
}

fn tell_back(
    alloc: Global,
    frame: &Back,
    read: &[u8],
    answer: &mut String,
) -> Result<(), AllocError>
    requires length { FitsLength (back_body frame.now) }
    requires counts { HasCounts frame.now }
{
    let mut written = BytesMut::new(alloc);
    write_back(frame, &mut written)?;
    tell_written(answer, written.as_slice(), read)
}
