//! Sizes of memory as PostgreSQL's settings write them (PostgreSQL 15, 20.1.1).

use command_line::count_of;

/// The kilobytes of a chunk.
const CHUNK: u64 = 16;

/// The fewest and the most kilobytes of logical_decoding_work_mem (PostgreSQL 15, 20.4.1).
const FEWEST: u64 = 64;

const MOST: u64 = 2_147_483_647;

/// The units, and how many kilobytes each has.
const UNITS: [(&str, u64); 4] = [("kB", 1), ("MB", 1 << 10), ("GB", 1 << 20), ("TB", 1 << 30)];

/// How many chunks hold a size like `64MB`; a number alone is kilobytes. None: it is no size, or none that the setting may have.
pub fn chunks_of(text: &str) -> Option<u32> {
    let kilobytes = kilobytes_of(text)?;
    if !(FEWEST..=MOST).contains(&kilobytes) {
        return None;
    }
    u32::try_from(kilobytes.div_ceil(CHUNK)).ok()
}

fn kilobytes_of(text: &str) -> Option<u64> {
    for (unit, kilobytes) in &UNITS {
        if let Some(number) = text.strip_suffix(*unit) {
            return times(number, *kilobytes);
        }
    }
    times(text, 1)
}

fn times(number: &str, kilobytes: u64) -> Option<u64> {
    let count = count_of(number.trim_end())?;
    u64::from(count).checked_mul(kilobytes)
}
