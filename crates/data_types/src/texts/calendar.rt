//! date: days by the Gregorian calendar, counted as Julian days (PostgreSQL 15, 8.5 and 8.5.1.1).

ghost use Rattle.std.specs.Prelude.{◌≡◌, ◌<◌, ◌≤◌, ◌+◌, ◌^◌, IfSome, codes, false};
ghost use Rattle.std.specs.Option.{option_map};
ghost use Rattle.data_types.specs.Calendar.{checked_day, date_after, date_of, day_at, day_number, day_of_word, days_to, era_at, era_named, finite_date, is_before_of, is_date_text, is_day_text, is_era_text, is_in_calendar, is_infinite_text, is_leap, is_padded_year, is_word, julian_day, lent_day, month_length, named_day, number_of_day, part_at, shifted_year};
ghost use Rattle.data_types.specs.Digits.{lent_run};

use crate::texts::digits::{Digits, after_blanks, are_blanks, digits_at, word_len};
use crate::texts::truth::abridges;

/// The Julian day of 1970-01-01.
pub(crate) const EPOCH_DAY: u64 = 2_440_588;

/// The last year.
pub(crate) const MAX_YEAR: u64 = 5_874_897;

/// The first year, before Christ.
pub(crate) const MAX_YEAR_BEFORE: u64 = 4714;

/// The number of the date infinity, which is greater than that of any day.
pub(crate) const INFINITE_DAY: u64 = 1 << 33;

/// A year, a month and a day as they are written.
#[derive(Clone, Copy)]
pub(crate) struct WrittenDay<'a> {
    pub year: u64,
    pub month: u64,
    pub day: u64,
    /// Whether they are written in as many digits as they are sent in.
    pub is_padded: bool,
    /// What stands after them.
    pub rest: &'a [u8],
}

/// The digits that stand after this mark.
pub(crate) fn part_at(mark: u8, text: &[u8]) -> Option<Digits<'_>>
    ensures { option_map lent_run result ≡ part_at mark text.now }
{
    match text.split_first() {
        Some((b, rest)) if *b == mark => {
            let digits = digits_at(rest)?;
            if digits.count > 0 { Some(digits) } else { None }
        }
        _ => None,
    }
}

fn is_padded_year(count: usize, year: u64) -> bool
    ensures { result ≡ is_padded_year count year }
{
    count == 4
        || (count == 5 && year >= 10_000)
        || (count == 6 && year >= 100_000)
        || (count == 7 && year >= 1_000_000)
}

/// The day at the front of a text; its year has three digits at least, with which it isn't taken for another form.
pub(crate) fn day_at(text: &[u8]) -> Option<WrittenDay<'_>>
    ensures { option_map lent_day result ≡ day_at text.now }
{
    let year = digits_at(text)?;
    let month = part_at(b'-', year.rest)?;
    let day = part_at(b'-', month.rest)?;
    if year.count < 3 {
        return None;
    }
    Some(WrittenDay {
        year: year.value,
        month: month.value,
        day: day.value,
        is_padded: is_padded_year(year.count, year.value) && month.count == 2 && day.count == 2,
        rest: day.rest,
    })
}

fn era_named(a: u8, b: u8) -> Option<bool>
    ensures { result ≡ era_named a b }
{
    if a == b'b' && b == b'c' {
        return Some(true);
    }
    if a == b'a' && b == b'd' {
        return Some(false);
    }
    None
}

fn era_at(text: &[u8]) -> Option<bool>
    ensures { result ≡ era_at text.now }
{
    match text {
        [] => Some(false),
        [a, b, rest @ ..] if are_blanks(rest) => {
            era_named(a.to_ascii_lowercase(), b.to_ascii_lowercase())
        }
        _ => None,
    }
}

/// Whether a year is one before Christ, by what stands at the end.
#[tactic(auto, unfolding(crate::specs::Calendar::is_before_of))]
pub(crate) fn is_before_of(text: &[u8]) -> Option<bool>
    ensures { result ≡ is_before_of text.now }
{
    era_at(after_blanks(text))
}

pub(crate) fn is_era_text(text: &[u8]) -> bool
    ensures { result ≡ is_era_text text.now }
{
    text.is_empty() || text == b" BC".as_slice()
}

fn shifted_year(is_before: bool, year: u64) -> Option<u64>
    ensures value { result ≡ shifted_year is_before year }
    ensures small { IfSome result (λ shifted. (1 ≤ shifted) × (shifted ≤ MAX_YEAR + 4800)) }
{
    if year < 1 {
        return None;
    }
    if is_before {
        if year <= MAX_YEAR_BEFORE {
            Some(4801 - year)
        } else {
            None
        }
    } else if year <= MAX_YEAR {
        Some(year + 4800)
    } else {
        None
    }
}

pub(crate) fn is_leap(year: u64) -> bool
    ensures { result ≡ is_leap year }
{
    year % 4 == 0 && (year % 100 != 0 || year % 400 == 0)
}

fn month_length(year: u64, month: u64) -> u64
    ensures value { result ≡ month_length year month }
    ensures small { result < 32 }
{
    match month {
        2 => { if is_leap(year) { 29 } else { 28 } }
        4 | 6 | 9 | 11 => 30,
        _ => 31,
    }
}

fn is_in_calendar(year: u64, month: u64, day: u64) -> bool
    ensures { result ≡ is_in_calendar year month day }
{
    1 <= month && month <= 12 && 1 <= day && day <= month_length(year, month)
}

fn days_to(year: u64, month: u64, day: u64) -> Option<u64>
    requires { (year < 2 ^ 23) × (month < 32) × (day < 32) }
    ensures value { result ≡ days_to year month day }
    ensures small { IfSome result (λ number. number < 2 ^ 32) }
{
    let days = year * 365 + year / 4 + year / 400 + 7834 * month / 256 + day;
    days.checked_sub(year / 100 + 32_167)
}

fn julian_day(year: u64, month: u64, day: u64) -> Option<u64>
    requires { (1 ≤ year) × (year < 2 ^ 23) × (month < 13) × (day < 32) }
    ensures value { result ≡ julian_day year month day }
    ensures small { IfSome result (λ number. number < 2 ^ 32) }
{
    if month > 2 {
        days_to(year, month + 1, day)
    } else {
        days_to(year - 1, month + 13, day)
    }
}

fn checked_day(year: u64, month: u64, day: u64) -> Option<u64>
    requires { (1 ≤ year) × (year < 2 ^ 23) }
    ensures value { result ≡ checked_day year month day }
    ensures small { IfSome result (λ number. number < 2 ^ 32) }
{
    if day < 32 && is_in_calendar(year, month, day) {
        julian_day(year, month, day)
    } else {
        None
    }
}

/// The Julian day; None where the calendar has no such day, or it is out of range.
#[tactic(auto, unfolding(crate::specs::Calendar::day_number))]
pub(crate) fn day_number(is_before: bool, year: u64, month: u64, day: u64) -> Option<u64>
    ensures value { result ≡ day_number is_before year month day }
    ensures small { IfSome result (λ number. number < 2 ^ 32) }
{
    checked_day(shifted_year(is_before, year)?, month, day)
}

/// Whether the text is this word, in either case.
pub(crate) fn is_word(word: &[u8], text: &[u8]) -> bool
    ensures { result ≡ is_word word.now text.now }
{
    text.len() == word.len() && abridges(0, word, text)
}

fn named_day(word: &[u8]) -> Option<u64>
    ensures { result ≡ named_day word.now }
{
    if is_word(b"epoch", word) {
        return Some(EPOCH_DAY + 1);
    }
    if is_word(b"infinity", word) {
        return Some(INFINITE_DAY);
    }
    if is_word(b"-infinity", word) {
        return Some(0);
    }
    None
}

fn day_of_word(text: &[u8]) -> Option<u64>
    ensures { result ≡ day_of_word text.now }
{
    let (word, rest) = text.split_at(word_len(text));
    if are_blanks(rest) {
        return named_day(word);
    }
    None
}

fn number_of_day(written: WrittenDay<'_>) -> Option<u64>
    ensures { result ≡ number_of_day (lent_day written.entry) }
{
    let is_before = is_before_of(written.rest)?;
    let day = day_number(is_before, written.year, written.month, written.day)?;
    Some(day + 1)
}

fn date_after(text: &[u8]) -> Option<u64>
    ensures { result ≡ date_after text.now }
{
    match day_at(text) {
        Some(written) => number_of_day(written),
        None => day_of_word(text),
    }
}

/// The number of the date that a text is taken for: one more than its Julian day, 0 of minus infinity, `INFINITE_DAY` of infinity.
#[tactic(auto, unfolding(crate::specs::Calendar::date_of))]
pub(crate) fn date_of(text: &[u8]) -> Option<u64>
    ensures { result ≡ date_of text.now }
{
    date_after(after_blanks(text))
}

pub(crate) fn is_infinite_text(text: &[u8]) -> bool
    ensures { result ≡ is_infinite_text text.now }
{
    text == b"infinity".as_slice() || text == b"-infinity".as_slice()
}

fn is_day_text(written: WrittenDay<'_>) -> bool
    ensures { result ≡ is_day_text (lent_day written.entry) }
{
    written.is_padded && is_era_text(written.rest) && number_of_day(written).is_some()
}

/// Whether the text is that of a date as it is sent.
pub(crate) fn is_date_text(text: &[u8]) -> bool
    ensures { result ≡ is_date_text text.now }
{
    if is_infinite_text(text) {
        return true;
    }
    match day_at(text) {
        Some(written) => is_day_text(written),
        None => false,
    }
}
