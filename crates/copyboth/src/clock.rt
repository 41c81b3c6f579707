//! The clock of the replication protocol: microseconds since the beginning of 2000-01-01 (PostgreSQL 15, 55.4), whatever leap
//! seconds there were, as Unix counts. Above, only the number is used: one that jumps back breaks nothing.

ghost use Rattle.std.specs.Prelude.{◌≡◌};
ghost use Rattle.core.specs.Duration.{as_nanos};
ghost use Rattle.copyboth.specs.Clocks.{clock_at};

use std::time::{Clock, Duration};

/// How many microseconds after the beginning of 1970 that of 2000 is.
const YEAR_2000: i64 = 946_684_800_000_000;

/// What the clock says so long after the beginning of 1970. `None` where that doesn't fit: in some 292,000 years.
pub fn clock_of(since_1970: Duration) -> Option<i64>
    ensures { result ≡ clock_at (as_nanos since_1970) }
{
    let micros = since_1970.as_micros();
    if micros < 1 << 63 {
        Some(micros as i64 - YEAR_2000)
    } else {
        None
    }
}

/// What the clock says now, or, where it can't be read, what it said last.
pub fn clock_now<R: Clock>(rt: &R, last: i64) -> i64 {
    match rt.since_1970() {
        Ok(time) => clock_of(time).unwrap_or(last),
        Err(_) => last,
    }
}
