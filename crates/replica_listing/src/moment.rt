//! The text of a moment.

ghost use Rattle.std.specs.Prelude.{◌≡◌, ◌*◌, ◌/◌, ◌%◌, ◌<◌, ◌≤◌, ◌++◌, codes, pos, unsigned_abs, length};
ghost use Rattle.jiff_core.specs.Date.{epoch_day};
ghost use Rattle.replica_listing.specs.Digits.{digits};
ghost use Rattle.replica_listing.specs.MomentText.{clock_text, day_of, day_text, last_dated_moment, moment_text};

use arrayvec::ArrayVec;
use itoa::Buffer;
use jiff_core::civil::Date;

/// Room for the longest text of a moment, in bytes.
pub const MOMENT_BYTES: usize = 24;

const LAST_DATED: u64 = 253_402_300_799_999;

const DAY: u64 = 86_400_000;

fn two_digits(n: u32) -> [u8; 2]
    ensures { result ≡ digits 2 n }
{
    [b'0' + (n / 10 % 10) as u8, b'0' + (n % 10) as u8]
}

fn three_digits(n: u32) -> [u8; 3]
    ensures { result ≡ digits 3 n }
{
    [
        b'0' + (n / 10 / 10 % 10) as u8,
        b'0' + (n / 10 % 10) as u8,
        b'0' + (n % 10) as u8,
    ]
}

fn four_digits(n: u32) -> [u8; 4]
    ensures { result ≡ digits 4 n }
{
    [
        b'0' + (n / 10 / 10 / 10 % 10) as u8,
        b'0' + (n / 10 / 10 % 10) as u8,
        b'0' + (n / 10 % 10) as u8,
        b'0' + (n % 10) as u8,
    ]
}

/// `YYYY-MM-DD` of a date from the year 0 on.
fn date_text(date: Date) -> [u8; 10]
    ensures { result ≡ day_text (record { year = unsigned_abs date.year; month = date.month; day = date.day }) }
{
    let mut text = *b"0000-00-00";
    text[0..4].copy_from_slice(&four_digits(u32::from(date.year.unsigned_abs())));
    text[5..7].copy_from_slice(&two_digits(u32::from(date.month)));
    text[8..10].copy_from_slice(&two_digits(u32::from(date.day)));
    text
}

/// The date that many days after 1970-01-01, up to 9999-12-31.
fn date_of(day: u32) -> Date
    requires { day ≤ 2_932_896 }
    ensures { epoch_day result ≡ pos day }
{
    let Ok(date) = Date::from_unix_epoch_day(i64::from(day)) else {
        unreachable!()
    };
    date
}

/// `YYYY-MM-DD` of the day that many days after 1970-01-01.
fn day_text(day: u32) -> [u8; 10]
    requires { day ≤ 2_932_896 }
    ensures { result ≡ day_text (day_of day) }
{
    date_text(date_of(day))
}

/// `HH:MM:SS.mmm` of the time of day in milliseconds.
fn clock_text(ms: u32) -> [u8; 12]
    requires { ms < 86_400_000 }
    ensures { result ≡ clock_text ms }
{
    let mut text = *b"00:00:00.000";
    text[0..2].copy_from_slice(&two_digits(ms / 3_600_000));
    text[3..5].copy_from_slice(&two_digits(ms / 60_000 % 60));
    text[6..8].copy_from_slice(&two_digits(ms / 1000 % 60));
    text[9..12].copy_from_slice(&three_digits(ms % 1000));
    text
}

/// The moment as `YYYY-MM-DDTHH:MM:SS.mmmZ`; behind the year 9999 in decimal. It is in milliseconds since
/// 1970-01-01T00:00:00Z. Takes no memory.
#[tactic(auto, unfolding(crate::specs::MomentText::moment_text))]
pub fn moment_text(moment: u64) -> ArrayVec<u8, MOMENT_BYTES>
    ensures value { result.items ≡ moment_text moment }
    ensures short { length result.items ≤ 24 }
{
    let mut text = ArrayVec::new();
    if moment > LAST_DATED {
        let mut number = Buffer::new();
        text.try_extend_from_slice(number.format(moment).as_bytes())
            .unwrap();
        return text;
    }
    text.try_extend_from_slice(&day_text((moment / DAY) as u32))
        .unwrap();
    text.try_extend_from_slice(b"T").unwrap();
    text.try_extend_from_slice(&clock_text((moment % DAY) as u32))
        .unwrap();
    text.try_extend_from_slice(b"Z").unwrap();
    text
}
