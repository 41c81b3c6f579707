//! timestamp and timestamptz: microseconds since Julian day 0, at UTC (PostgreSQL 15, 8.5 and 8.5.1.3).

ghost use Rattle.std.specs.Prelude.{◌≡◌, ◌<◌, ◌≤◌, ◌+◌, ◌*◌, ◌^◌, IfSome};
ghost use Rattle.std.specs.Option.{option_map};
ghost use Rattle.data_types.specs.Calendar.{lent_day};
ghost use Rattle.data_types.specs.Clock.{lent_time};
ghost use Rattle.data_types.specs.Digits.{lent_run};
ghost use Rattle.data_types.specs.Moments.{begins_with_digit, in_range, is_before_time, is_moment_text, is_sent_moment, lent_moment, lent_zone, midnight, moment_at, moment_number, moment_of, moment_of_word, named_moment, no_zone, number_of_moment, signed_zone, spaced, time_after, zone_after, zone_at, zone_by_hour, zone_of};
ghost use Rattle.data_types.specs.declared.texts.clock.TheConstants.{DAY_MICROSECONDS};

use crate::texts::calendar::{
    EPOCH_DAY, WrittenDay, day_at, day_number, is_before_of, is_era_text, is_infinite_text,
    is_word, part_at,
};
use crate::texts::clock::{DAY_MICROSECONDS, WrittenTime, time_at};
use crate::texts::digits::{Digits, after_blanks, are_blanks, digits_at, word_len};

/// The Julian day of 294277-01-01, which no moment reaches.
pub(crate) const END_DAY: u64 = 109_203_528;

/// The number of the moment infinity, which is greater than that of any other.
pub(crate) const INFINITE_MOMENT: u64 = u64::MAX;

/// A distance from UTC as it is written.
#[derive(Clone, Copy)]
pub(crate) struct WrittenZone<'a> {
    pub is_ahead: bool,
    pub seconds: u64,
    /// Whether it is written as it is sent.
    pub is_padded: bool,
    /// What stands after it.
    pub rest: &'a [u8],
}

/// A day, a time and a distance from UTC as they are written.
#[derive(Clone, Copy)]
pub(crate) struct WrittenMoment<'a> {
    pub day: WrittenDay<'a>,
    pub time: WrittenTime<'a>,
    pub zone: WrittenZone<'a>,
}

fn begins_with_digit(text: &[u8]) -> bool
    ensures { result ≡ begins_with_digit text.now }
{
    match text.split_first() {
        Some((b, _)) => b.is_ascii_digit(),
        None => false,
    }
}

fn is_before_time(b: u8) -> bool
    ensures { result ≡ is_before_time b }
{
    b == b' ' || b == b'T' || b == b't'
}

/// The time that stands after a day; midnight where none does.
fn time_after(text: &[u8]) -> Option<WrittenTime<'_>>
    ensures value { option_map lent_time result ≡ time_after text.now }
    ensures small { IfSome result (λ time. time.microseconds ≤ DAY_MICROSECONDS) }
{
    match text.split_first() {
        Some((b, written)) if is_before_time(*b) && begins_with_digit(written) => {
            let time = time_at(written)?;
            Some(WrittenTime {
                microseconds: time.microseconds,
                is_padded: time.is_padded && *b == b' ',
                rest: time.rest,
            })
        }
        _ => Some(WrittenTime {
            microseconds: 0,
            is_padded: false,
            rest: text,
        }),
    }
}

fn zone_of(
    is_ahead: bool,
    hour: u64,
    minute: u64,
    is_padded: bool,
    rest: &[u8],
) -> Option<WrittenZone<'_>>
    ensures value { option_map lent_zone result ≡ zone_of is_ahead hour minute is_padded rest.now }
    ensures small { IfSome result (λ zone. zone.seconds < 2 ^ 16) }
{
    if hour > 15 || minute > 59 {
        return None;
    }
    Some(WrittenZone {
        is_ahead,
        seconds: (hour * 60 + minute) * 60,
        is_padded,
        rest,
    })
}

fn zone_by_hour(is_ahead: bool, hour: Digits<'_>) -> Option<WrittenZone<'_>>
    ensures value { option_map lent_zone result ≡ zone_by_hour is_ahead (lent_run hour.entry) }
    ensures small { IfSome result (λ zone. zone.seconds < 2 ^ 16) }
{
    if hour.count > 2 {
        return None;
    }
    match part_at(b':', hour.rest) {
        Some(minute) => zone_of(is_ahead, hour.value, minute.value, false, minute.rest),
        None => {
            let is_padded = is_ahead && hour.count == 2 && hour.value == 0;
            zone_of(is_ahead, hour.value, 0, is_padded, hour.rest)
        }
    }
}

fn signed_zone(is_ahead: bool, text: &[u8]) -> Option<WrittenZone<'_>>
    ensures value { option_map lent_zone result ≡ signed_zone is_ahead text.now }
    ensures small { IfSome result (λ zone. zone.seconds < 2 ^ 16) }
{
    let hour = digits_at(text)?;
    if hour.count > 0 {
        return zone_by_hour(is_ahead, hour);
    }
    None
}

fn no_zone(text: &[u8]) -> WrittenZone<'_>
    ensures value { lent_zone result ≡ no_zone text.now }
    ensures small { result.seconds < 2 ^ 16 }
{
    WrittenZone {
        is_ahead: true,
        seconds: 0,
        is_padded: false,
        rest: text,
    }
}

/// The distance from UTC that stands after a time: a sign and hours, with minutes or without; Z is UTC, and so is nothing.
fn zone_at(text: &[u8]) -> Option<WrittenZone<'_>>
    ensures value { option_map lent_zone result ≡ zone_at text.now }
    ensures small { IfSome result (λ zone. zone.seconds < 2 ^ 16) }
{
    match text.split_first() {
        Some((b, rest)) if *b == b'+' => signed_zone(true, rest),
        Some((b, rest)) if *b == b'-' => signed_zone(false, rest),
        Some((b, rest)) if *b == b'Z' || *b == b'z' => Some(no_zone(rest)),
        _ => Some(no_zone(text)),
    }
}

fn zone_after(is_zoned: bool, text: &[u8]) -> Option<WrittenZone<'_>>
    ensures value { option_map lent_zone result ≡ zone_after is_zoned text.now }
    ensures small { IfSome result (λ zone. zone.seconds < 2 ^ 16) }
{
    if is_zoned {
        return zone_at(text);
    }
    Some(WrittenZone {
        is_ahead: true,
        seconds: 0,
        is_padded: true,
        rest: text,
    })
}

fn in_range(microseconds: Option<u64>) -> Option<u64>
    ensures { result ≡ in_range microseconds }
{
    match microseconds {
        Some(n) if n < END_DAY * DAY_MICROSECONDS => Some(n + 1),
        _ => None,
    }
}

fn moment_number(day: u64, microseconds: u64, zone: WrittenZone<'_>) -> Option<u64>
    requires { (microseconds ≤ DAY_MICROSECONDS) × (zone.seconds < 2 ^ 16) }
    ensures { result ≡ moment_number day microseconds (lent_zone zone.entry) }
{
    if day > END_DAY {
        return None;
    }
    let local = day * DAY_MICROSECONDS + microseconds;
    let distance = zone.seconds * 1_000_000;
    if zone.is_ahead {
        in_range(local.checked_sub(distance))
    } else {
        in_range(Some(local + distance))
    }
}

#[tactic(auto, unfolding(crate::specs::Moments::moment_at))]
fn moment_at(is_zoned: bool, text: &[u8]) -> Option<WrittenMoment<'_>>
    ensures value { option_map lent_moment result ≡ moment_at is_zoned text.now }
    ensures small { IfSome result (λ it. (it.time.microseconds ≤ DAY_MICROSECONDS)
        × (it.zone.seconds < 2 ^ 16)) }
{
    let day = day_at(text)?;
    let time = time_after(day.rest)?;
    let zone = zone_after(is_zoned, time.rest)?;
    Some(WrittenMoment { day, time, zone })
}

fn number_of_moment(it: WrittenMoment<'_>) -> Option<u64>
    requires { (it.time.microseconds ≤ DAY_MICROSECONDS) × (it.zone.seconds < 2 ^ 16) }
    ensures { result ≡ number_of_moment (lent_moment it.entry) }
{
    let is_before = is_before_of(it.zone.rest)?;
    let day = day_number(is_before, it.day.year, it.day.month, it.day.day)?;
    moment_number(day, it.time.microseconds, it.zone)
}

fn named_moment(word: &[u8]) -> Option<u64>
    ensures { result ≡ named_moment word.now }
{
    if is_word(b"epoch", word) {
        return Some(EPOCH_DAY * DAY_MICROSECONDS + 1);
    }
    if is_word(b"infinity", word) {
        return Some(INFINITE_MOMENT);
    }
    if is_word(b"-infinity", word) {
        return Some(0);
    }
    None
}

fn moment_of_word(text: &[u8]) -> Option<u64>
    ensures { result ≡ moment_of_word text.now }
{
    let (word, rest) = text.split_at(word_len(text));
    if are_blanks(rest) {
        return named_moment(word);
    }
    None
}

/// The number of the moment that a text is taken for, with a distance from UTC or without: one more than its microseconds since
/// Julian day 0, 0 of minus infinity, `INFINITE_MOMENT` of infinity.
#[tactic(auto, unfolding(crate::specs::Moments::moment_of))]
pub(crate) fn moment_of(is_zoned: bool, text: &[u8]) -> Option<u64>
    ensures { result ≡ moment_of is_zoned text.now }
{
    let text = after_blanks(text);
    match moment_at(is_zoned, text) {
        Some(it) => number_of_moment(it),
        None => moment_of_word(text),
    }
}

fn is_sent_moment(it: WrittenMoment<'_>) -> bool
    requires { (it.time.microseconds ≤ DAY_MICROSECONDS) × (it.zone.seconds < 2 ^ 16) }
    ensures { result ≡ is_sent_moment (lent_moment it.entry) }
{
    it.day.is_padded
        && it.time.is_padded
        && it.time.microseconds < DAY_MICROSECONDS
        && it.zone.is_padded
        && is_era_text(it.zone.rest)
        && number_of_moment(it).is_some()
}

/// Whether the text is that of a moment as it is sent.
pub(crate) fn is_moment_text(is_zoned: bool, text: &[u8]) -> bool
    ensures { result ≡ is_moment_text is_zoned text.now }
{
    if is_infinite_text(text) {
        return true;
    }
    match moment_at(is_zoned, text) {
        Some(it) => is_sent_moment(it),
        None => false,
    }
}
