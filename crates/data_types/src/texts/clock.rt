//! time: microseconds since midnight (PostgreSQL 15, 8.5.1.2).

ghost use Rattle.std.specs.Prelude.{◌≡◌, ◌<◌, ◌≤◌, ◌+◌, ◌*◌, ◌^◌, IfSome};
ghost use Rattle.std.specs.Option.{option_map};
ghost use Rattle.data_types.specs.Clock.{fraction_of, last_digit_worth, lent_seconds, lent_time, is_on_clock, is_sent_time, is_time_text, microseconds_of, seconds_at, time_at, time_of, time_of_parts, whole_seconds, whole_time, with_fraction};
ghost use Rattle.data_types.specs.Digits.{lent_run};
ghost use Rattle.data_types.specs.declared.texts.clock.TheConstants.{DAY_MICROSECONDS};

use crate::texts::calendar::part_at;
use crate::texts::digits::{Digits, after_blanks, are_blanks, digits_at};

/// The microseconds of a day.
pub(crate) const DAY_MICROSECONDS: u64 = 86_400_000_000;

/// Seconds as they are written.
#[derive(Clone, Copy)]
pub(crate) struct WrittenSeconds<'a> {
    pub seconds: u64,
    /// Their fraction.
    pub microseconds: u64,
    /// Whether they are written as they are sent.
    pub is_padded: bool,
    /// What stands after them.
    pub rest: &'a [u8],
}

/// A time as it is written.
#[derive(Clone, Copy)]
pub(crate) struct WrittenTime<'a> {
    /// Since midnight.
    pub microseconds: u64,
    /// Whether it is written as it is sent.
    pub is_padded: bool,
    /// What stands after it.
    pub rest: &'a [u8],
}

fn last_digit_worth(count: usize) -> u64
    ensures value { result ≡ last_digit_worth count }
    ensures small { result ≤ 100000 }
{
    match count {
        1 => 100_000,
        2 => 10_000,
        3 => 1000,
        4 => 100,
        5 => 10,
        _ => 1,
    }
}

fn fraction_of<'a>(seconds: Digits<'_>, fraction: Digits<'a>) -> Option<WrittenSeconds<'a>>
    ensures { option_map lent_seconds result
        ≡ fraction_of (lent_run seconds.entry) (lent_run fraction.entry) }
{
    if fraction.count == 0 || fraction.count > 6 || fraction.value >= 1_000_000 {
        return None;
    }
    Some(WrittenSeconds {
        seconds: seconds.value,
        microseconds: fraction.value * last_digit_worth(fraction.count),
        is_padded: seconds.count == 2 && fraction.value % 10 != 0,
        rest: fraction.rest,
    })
}

fn whole_seconds(seconds: Digits<'_>) -> WrittenSeconds<'_>
    ensures { lent_seconds result ≡ whole_seconds (lent_run seconds.entry) }
{
    WrittenSeconds {
        seconds: seconds.value,
        microseconds: 0,
        is_padded: seconds.count == 2,
        rest: seconds.rest,
    }
}

/// The seconds with their fraction, where a point stands after them.
fn with_fraction(seconds: Digits<'_>) -> Option<WrittenSeconds<'_>>
    ensures { option_map lent_seconds result
        ≡ with_fraction (lent_run seconds.entry) seconds.entry.rest.now }
{
    match seconds.rest.split_first() {
        Some((b, digits)) if *b == b'.' => fraction_of(seconds, digits_at(digits)?),
        _ => Some(whole_seconds(seconds)),
    }
}

fn seconds_at(text: &[u8]) -> Option<WrittenSeconds<'_>>
    ensures { option_map lent_seconds result ≡ seconds_at text.now }
{
    match text.split_first() {
        Some((b, _)) if *b == b':' => with_fraction(part_at(b':', text)?),
        _ => Some(WrittenSeconds {
            seconds: 0,
            microseconds: 0,
            is_padded: false,
            rest: text,
        }),
    }
}

fn is_on_clock(hour: u64, minute: u64, it: WrittenSeconds<'_>) -> bool
    ensures { result ≡ is_on_clock hour minute (lent_seconds it.entry) }
{
    hour <= 24 && minute <= 59 && it.seconds <= 60 && it.microseconds < 1_000_000
}

fn time_of_parts<'a>(
    hour: Digits<'_>,
    minute: Digits<'_>,
    it: WrittenSeconds<'a>,
) -> Option<WrittenTime<'a>>
    ensures value { option_map lent_time result
        ≡ time_of_parts (lent_run hour.entry) (lent_run minute.entry) (lent_seconds it.entry) }
    ensures small { IfSome result (λ time. time.microseconds ≤ DAY_MICROSECONDS) }
{
    if !is_on_clock(hour.value, minute.value, it) {
        return None;
    }
    let seconds = (hour.value * 60 + minute.value) * 60 + it.seconds;
    let microseconds = seconds * 1_000_000 + it.microseconds;
    if microseconds > DAY_MICROSECONDS {
        return None;
    }
    Some(WrittenTime {
        microseconds,
        is_padded: hour.count == 2 && minute.count == 2 && it.is_padded && it.seconds < 60,
        rest: it.rest,
    })
}

/// The time at the front of a text: hours and minutes, and seconds where they stand there.
#[tactic(auto, unfolding(crate::specs::Clock::time_at))]
pub(crate) fn time_at(text: &[u8]) -> Option<WrittenTime<'_>>
    ensures value { option_map lent_time result ≡ time_at text.now }
    ensures small { IfSome result (λ time. time.microseconds ≤ DAY_MICROSECONDS) }
{
    let hour = digits_at(text)?;
    let minute = part_at(b':', hour.rest)?;
    let seconds = seconds_at(minute.rest)?;
    time_of_parts(hour, minute, seconds)
}

/// The microseconds since midnight of the time that a text is taken for.
pub(crate) fn time_of(text: &[u8]) -> Option<u64>
    ensures { result ≡ time_of text.now }
{
    let time = time_at(after_blanks(text))?;
    if are_blanks(time.rest) {
        return Some(time.microseconds);
    }
    None
}

/// Whether the text is that of a time as it is sent.
pub(crate) fn is_time_text(text: &[u8]) -> bool
    ensures { result ≡ is_time_text text.now }
{
    match time_at(text) {
        Some(time) => time.is_padded && time.rest.is_empty(),
        None => false,
    }
}
