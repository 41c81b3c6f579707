//! Files of the log: what is read of one, and which file comes of steps.

use crate::wording::answer::bytes_of;
use anyhow::{Result, bail};
use segments::{Content, Segment, read_content};
use sqlite_disk::{Crash, Disk, Memory};
use std::alloc::{AllocError, Global};

/// The bytes of a file: its key, where its entries end, and of each entry how much was on the disk before it, and its body.
pub fn answer_segment(alloc: Global, bytes: &[u8], answer: &mut String) -> Result<()> {
    Ok(match read_content(alloc, bytes) {
        Ok(content) => tell_content(alloc, &content, answer),
        Err(fault) => write!(answer, "! {fault:?}"),
    }?)
}

fn tell_content(alloc: Global, content: &Content, answer: &mut String) -> Result<(), AllocError> {
    let (key, end) = (content.key, content.end);
    write!(answer, "= {key} {end}")?;
    for entry in &content.entries {
        let synced = entry.synced;
        let digits = hex::encode(alloc, entry.body.as_slice())?;
        write!(answer, " {synced}:{digits}")?;
    }
    Ok(())
}

/// `KEY|STEP|..`: the file that comes of the steps. `sync` puts on the disk what was written, a `crash` loses what isn't there, and the file
/// is opened again; any other step is the body of an entry, in hexadecimal digits.
pub fn answer_segments(alloc: Global, given: &str, answer: &mut String) -> Result<()> {
    let (key, steps) = given.split_once('|').unwrap_or((given, ""));
    let Ok(key) = key.parse::<u64>() else {
        bail!("no key");
    };
    let mut segment = Segment::create(alloc, Memory::new(alloc), key)?;
    for step in steps.split('|') {
        segment = after_step(alloc, segment, step)?;
    }
    let file = segment.end();
    let digits = hex::encode(alloc, file.bytes())?;
    Ok(write!(answer, "= {digits}")?)
}

fn after_step(alloc: Global, mut segment: Segment<Memory>, step: &str) -> Result<Segment<Memory>> {
    match step {
        "sync" => segment.sync()?,
        "crash" => return after_crash(alloc, segment.end()),
        digits => segment.append(bytes_of(alloc, digits)?.as_slice())?,
    }
    Ok(segment)
}

fn after_crash(alloc: Global, mut file: Memory) -> Result<Segment<Memory>> {
    file.crash();
    file.sync()?;
    let (segment, entries) = Segment::open(alloc, file)?;
    drop(entries);
    Ok(segment)
}
