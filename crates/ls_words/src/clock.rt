//! Times of day in a text.

ghost use Rattle.std.specs.Prelude.{◌≡◌, ◌+◌, ◌^◌, ◌<◌, ◌≤◌, length, IfSome};
ghost use Rattle.ls_words.specs.Clock.{digits_at, clock_at, second_of};

use crate::digit::decimal_of;

/// The number that the `count` digits from `from` on write. `None` exactly where one of them is no
/// decimal digit.
pub fn digits_at(text: &[u8], from: usize, count: usize) -> Option<u32>
    requires count_in { count ≤ 9 }
    requires within { from + count ≤ length text.now }
    ensures value { result ≡ digits_at from count text.now }
    ensures bound { IfSome result (λ number. number < 10 ^ count) }
{
    decimal_of(&text[from..from + count])
}

/// The minutes since midnight of the `HH:MM` from `from` on. `None` exactly where none stands there, or
/// the hour is above 23 or the minute above 59.
#[tactic(auto, unfolding(crate::specs::Clock::clock_at))]
pub fn clock_at(text: &[u8], from: usize) -> Option<u32>
    requires { from + 5 ≤ length text.now }
    ensures value { result ≡ clock_at from text.now }
    ensures bound { IfSome result (λ minutes. minutes < 1440) }
{
    let hour = digits_at(text, from, 2)?;
    let minute = digits_at(text, from + 3, 2)?;
    if text[from + 2] != b':' || hour > 23 || minute > 59 {
        return None;
    }
    Some(hour * 60 + minute)
}

/// The seconds since midnight of the `THH:MM:SS` behind a date. `None` exactly where none stands there, or
/// the hour is above 23, or the minute or the second above 59.
#[tactic(auto, unfolding(crate::specs::Clock::second_of))]
pub fn second_of(text: &[u8]) -> Option<u32>
    requires { 20 ≤ length text.now }
    ensures value { result ≡ second_of text.now }
    ensures bound { IfSome result (λ seconds. seconds < 86400) }
{
    let minutes = clock_at(text, 11)?;
    let second = digits_at(text, 17, 2)?;
    if !(text[10] == b'T' || text[10] == b't') || text[16] != b':' || second > 59 {
        return None;
    }
    Some(minutes * 60 + second)
}
