//! Decimal digits.

ghost use Rattle.std.specs.Prelude.{◌≡◌, ◌^◌, ◌<◌, ◌≤◌, length, IfSome, IsTrue};
ghost use Rattle.std.specs.Str.Parse.{digits_value};
ghost use Rattle.ls_words.specs.Digit.{all_digits, decimal_of};

/// Whether each byte is a decimal digit.
pub fn all_digits(text: &[u8]) -> bool
    ensures { result ≡ all_digits text.now }
{
    text.iter().all(|c| c.is_ascii_digit())
}

/// The number that the digits write. `None` exactly where one of them is no decimal digit.
#[tactic(auto, unfolding(crate::specs::Digit::decimal_of))]
pub fn decimal_of(digits: &[u8]) -> Option<u32>
    requires { length digits.now ≤ 9 }
    ensures value { result ≡ decimal_of digits.now }
    ensures bound { IfSome result (λ number. number < 10 ^ length digits.now) }
{
    if !all_digits(digits) {
        return None;
    }
    Some(value_of(digits))
}

/// The number that decimal digits write.
fn value_of(digits: &[u8]) -> u32
    requires short { length digits.now ≤ 9 }
    requires digits { IsTrue (all_digits digits.now) }
    ensures value { result ≡ digits_value 10 digits.now }
    ensures bound { result < 10 ^ length digits.now }
{
    let mut number = 0u32;
    for digit in digits {
        number = number * 10 + u32::from(*digit - b'0');
    }
    number
}
