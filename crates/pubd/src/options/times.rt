//! Times as PostgreSQL's settings write them (PostgreSQL 15, 20.1.1).

use command_line::count_of;
use std::time::Duration;

/// The most milliseconds of a setting.
const MOST: u64 = 2_147_483_647;

/// The units, and how many milliseconds each has.
const UNITS: [(&str, u64); 5] = [
    ("ms", 1),
    ("min", 60_000),
    ("s", 1_000),
    ("h", 3_600_000),
    ("d", 86_400_000),
];

/// The time of a text like `60s` or `1min`; a number alone is milliseconds. None: it is no time, or longer than a setting's may be.
pub fn timeout_of(text: &str) -> Option<Duration> {
    for (unit, milliseconds) in &UNITS {
        if let Some(number) = text.strip_suffix(*unit) {
            return times(number, *milliseconds);
        }
    }
    times(text, 1)
}

fn times(number: &str, milliseconds: u64) -> Option<Duration> {
    let count = count_of(number.trim_end())?;
    let total = u64::from(count).checked_mul(milliseconds)?;
    if total <= MOST {
        Some(Duration::from_millis(total))
    } else {
        None
    }
}
