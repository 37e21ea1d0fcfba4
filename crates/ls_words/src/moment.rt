//! Moments.

ghost use Rattle.std.specs.Prelude.{◌≡◌, ◌+◌, ◌*◌, ◌^◌, ◌<◌, ◌≤◌, length, IfSome, option_map};
ghost use Rattle.std.specs.Char.{is_ascii_digit};
ghost use Rattle.std.specs.List.{prefix_len};
ghost use Rattle.jiff_core.specs.Calendar.{IsEpochDay, IsWithin};
ghost use Rattle.ls_words.specs.Moment.{day_number, day_of, fraction_with, fraction_behind, fraction_of, offset_of};
ghost use Rattle.ls_words.specs.Moment.{moment_at, moment_of};
ghost use Rattle.ls_words.specs.MomentView.{as_fraction};

use crate::clock::{clock_at, digits_at, second_of};
use crate::value::is_within;
use jiff_core::civil::Date;

/// The part of a second behind its point.
#[derive(Clone, Copy, Debug)]
struct Fraction {
    /// In ms, rounded down.
    ms: u32,
    /// How many bytes write it.
    len: usize,
}

/// The day's number, where 1970-01-01 is 0. `None` exactly where the calendar has no such day.
fn day_number(year: u32, month: u32, day: u32) -> Option<i32>
    requires year_in { year < 10000 }
    requires month_in { month < 100 }
    requires day_in { day < 100 }
    ensures value { result ≡ day_number year month day }
    ensures bound { IfSome result IsEpochDay }
{
    let date = Date::new(year as i16, month as i8, day as i8).ok()?;
    Some(date.to_unix_epoch_day())
}

/// The day's number of the `YYYY-MM-DD` at the front.
#[tactic(auto, unfolding(crate::specs::Moment::day_of))]
fn day_of(text: &[u8]) -> Option<i32>
    requires { 20 ≤ length text.now }
    ensures value { result ≡ day_of text.now }
    ensures bound { IfSome result IsEpochDay }
{
    let year = digits_at(text, 0, 4)?;
    let month = digits_at(text, 5, 2)?;
    let day = digits_at(text, 8, 2)?;
    if text[4] != b'-' || text[7] != b'-' {
        return None;
    }
    day_number(year, month, day)
}

/// How many digits stand at the front.
fn digit_count(text: &[u8]) -> usize
    ensures value { result ≡ prefix_len is_ascii_digit text.now }
    ensures bound { result ≤ length text.now }
{
    for (i, c) in text.iter().enumerate() {
        if !c.is_ascii_digit() {
            return i;
        }
    }
    text.len()
}

/// The fraction that so many digits write.
fn fraction_with(written: u32, count: usize) -> Fraction
    requires few { count ≤ 9 }
    requires short { written < 10 ^ count }
    ensures value { as_fraction result ≡ fraction_with count written }
    ensures below { result.ms < 1000 }
{
    let ms = u64::from(written) * 1000 / 10u64.pow(count as u32);
    Fraction {
        ms: ms as u32,
        len: count + 1,
    }
}

#[tactic(auto, unfolding(crate::specs::Moment::fraction_behind))]
fn fraction_behind(rest: &[u8], count: usize) -> Option<Fraction>
    requires { count < length rest.now }
    ensures value { option_map as_fraction result ≡ fraction_behind count rest.now }
    ensures short { IfSome result (λ fraction. fraction.len ≤ length rest.now) }
    ensures below { IfSome result (λ fraction. fraction.ms < 1000) }
{
    if !is_within(1, 9, count as u64) {
        return None;
    }
    let written = digits_at(rest, 1, count)?;
    Some(fraction_with(written, count))
}

/// The fraction of a second at the front: nothing, or a point and 1 to 9 digits. `None` exactly where a
/// point stands before another number of digits.
#[tactic(auto, unfolding(crate::specs::Moment::fraction_of))]
fn fraction_of(rest: &[u8]) -> Option<Fraction>
    requires { 0 < length rest.now }
    ensures value { option_map as_fraction result ≡ fraction_of rest.now }
    ensures short { IfSome result (λ fraction. fraction.len ≤ length rest.now) }
    ensures below { IfSome result (λ fraction. fraction.ms < 1000) }
{
    if rest[0] != b'.' {
        return Some(Fraction { ms: 0, len: 0 });
    }
    fraction_behind(rest, digit_count(&rest[1..]))
}

/// The offset from UTC in minutes: `Z`, `z`, `+HH:MM` or `-HH:MM`. `None` exactly for any other text.
#[tactic(auto, unfolding(crate::specs::Moment::offset_of))]
fn offset_of(zone: &[u8]) -> Option<i32>
    ensures value { result ≡ offset_of zone.now }
    ensures bound { IfSome result (IsWithin 1439) }
{
    if zone == b"Z".as_slice() || zone == b"z".as_slice() {
        return Some(0);
    }
    if zone.len() != 6 {
        return None;
    }
    let minutes = clock_at(zone, 1)? as i32;
    if zone[0] == b'+' {
        return Some(minutes);
    }
    if zone[0] == b'-' {
        return Some(-minutes);
    }
    None
}

fn moment_at(day: i32, second: u32, ms: u32, offset: i32) -> i64
    requires day_in { IsEpochDay day }
    requires second_in { second < 86400 }
    requires ms_in { ms < 1000 }
    requires offset_in { IsWithin 1439 offset }
    ensures { result ≡ moment_at day second ms offset }
{
    let of_day = u64::from(second) * 1000 + u64::from(ms);
    i64::from(day) * 86_400_000 + of_day as i64 - i64::from(offset) * 60_000
}

/// The moment that the text writes, in ms since 1970-01-01T00:00:00Z, rounded down; it may be below 0.
/// `None` exactly where it isn't of the form or the calendar has no such day.
#[tactic(auto, unfolding(crate::specs::Moment::moment_of))]
pub fn moment_of(text: &str) -> Option<i64>
    ensures { result ≡ moment_of text.now }
{
    let text = text.as_bytes();
    if text.len() < 20 {
        return None;
    }
    let day = day_of(text)?;
    let second = second_of(text)?;
    let fraction = fraction_of(&text[19..])?;
    let offset = offset_of(&text[19 + fraction.len..])?;
    Some(moment_at(day, second, fraction.ms, offset))
}
