//! The values of flags.

ghost use Rattle.std.specs.Prelude.{◌≡◌, ◌^◌, ◌<◌, ◌≤◌, IfSome, IsTrue, option_copied};
ghost use Rattle.ls_words.specs.Value.{is_true_word, is_false_word, truth_of, is_number, is_within, number_of};
ghost use Rattle.ls_words.specs.Value.{without_last, timed, duration_of};

use crate::digit::all_digits;

/// Go's six spellings of true.
#[tactic(auto, unfolding(crate::specs::Value::is_true_word))]
fn is_true_word(text: &str) -> bool
    ensures { result ≡ is_true_word text.now }
{
    text == "1" || text == "t" || text == "T" || text == "TRUE" || text == "true" || text == "True"
}

/// Go's six spellings of false.
#[tactic(auto, unfolding(crate::specs::Value::is_false_word))]
fn is_false_word(text: &str) -> bool
    ensures { result ≡ is_false_word text.now }
{
    text == "0"
        || text == "f"
        || text == "F"
        || text == "FALSE"
        || text == "false"
        || text == "False"
}

/// The truth that the text spells. `None` exactly where it is none of Go's twelve spellings.
pub fn truth_of(text: &str) -> Option<bool>
    ensures { result ≡ truth_of text.now }
{
    if is_true_word(text) {
        return Some(true);
    }
    if is_false_word(text) {
        return Some(false);
    }
    None
}

/// Whether the text is 1 to `most` decimal digits.
#[tactic(auto, unfolding(crate::specs::Value::is_number))]
fn is_number(text: &str, most: usize) -> bool
    ensures { result ≡ is_number most text.now }
{
    all_digits(text.as_bytes()) && !text.is_empty() && text.len() <= most
}

#[tactic(auto, unfolding(crate::specs::Value::is_within))]
pub fn is_within(low: u64, high: u64, n: u64) -> bool
    ensures value { result ≡ is_within low high n }
    ensures high { IsTrue result → n ≤ high }
{
    low <= n && n <= high
}

/// The number that 1 to `most` decimal digits write, from `low` to `high`. `None` exactly for any other
/// text.
pub fn number_of(text: &str, most: usize, low: u64, high: u64) -> Option<u64>
    ensures value { result ≡ number_of most low high text.now }
    ensures within { IfSome result (λ number. number ≤ high) }
{
    if !is_number(text, most) {
        return None;
    }
    let number = text.parse::<u64>().ok()?;
    if !is_within(low, high, number) {
        return None;
    }
    Some(number)
}

/// The text before its last character, where that is `last`.
fn without_last(text: &str, last: char) -> Option<&str>
    requires some { 0 < last }
    requires ascii { last < 128 }
    ensures { option_copied result ≡ without_last last text.now }
{
    text.strip_suffix(last)
}

/// How many units the digits count, in ms. `None` exactly where they aren't 1 to 9 digits.
#[tactic(auto, unfolding(crate::specs::Value::timed))]
fn timed(digits: &str, unit: u64) -> Option<u64>
    requires { unit ≤ 3600000 }
    ensures { result ≡ timed unit digits.now }
{
    let count = number_of(digits, 9, 0, 999_999_999)?;
    Some(count * unit)
}

/// The duration that the text writes, in ms: 1 to 9 decimal digits and `h`, `m`, `s` or `ms`. `None`
/// exactly for any other text.
pub fn duration_of(text: &str) -> Option<u64>
    ensures { result ≡ duration_of text.now }
{
    if let Some(digits) = without_last(text, 'h') {
        return timed(digits, 3_600_000);
    }
    if let Some(digits) = without_last(text, 'm') {
        return timed(digits, 60_000);
    }
    let front = without_last(text, 's')?;
    if let Some(digits) = without_last(front, 'm') {
        return timed(digits, 1);
    }
    timed(front, 1000)
}
