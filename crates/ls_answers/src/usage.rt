//! The texts of bad words.

ghost use Rattle.std.specs.Prelude.{◌≡◌, ◌≤◌, ◌++◌, length, codes};
ghost use Rattle.ls_answers.specs.Refusal.{blamed_word, usage_text};

use arrayvec::ArrayVec;
use ls_words::{UsageWhy, Words};

/// Room for the longest text before the word, in bytes.
pub const HEAD_BYTES: usize = 41;

/// What is wrong with a word.
fn usage_text(why: UsageWhy) -> &'static str
    ensures value { result.now ≡ usage_text why }
    ensures short { length result.now ≤ 20 }
{
    match why {
        UsageWhy::NoCommand => "no command",
        UsageWhy::UnknownCommand => "unknown command",
        UsageWhy::BadSyntax => "bad flag syntax",
        UsageWhy::UnknownFlag => "unknown flag",
        UsageWhy::NeedsValue => "flag needs a value",
        UsageWhy::BadTruth => "bad truth value",
        UsageWhy::BadNumber => "bad number",
        UsageWhy::BadTxid => "bad txid",
        UsageWhy::BadMoment => "bad timestamp",
        UsageWhy::BadDuration => "bad duration",
        UsageWhy::BadPath => "bad path",
        UsageWhy::RemoteStore => "remote store",
        UsageWhy::MissingWord => "missing word",
        UsageWhy::ExtraWord => "extra word",
        UsageWhy::NeedsOutput => "-o is needed",
        UsageWhy::BothGiven => "-txid and -timestamp",
    }
}

/// The line up to the word. Takes no memory.
pub fn usage_head(why: UsageWhy) -> ArrayVec<u8, HEAD_BYTES>
    ensures { result.items ≡ codes "litestream: " ++ codes "usage: " ++ usage_text why ++ codes ": " }
{
    let mut head = ArrayVec::new();
    head.try_extend_from_slice(b"litestream: ").unwrap();
    head.try_extend_from_slice(b"usage: ").unwrap();
    head.try_extend_from_slice(usage_text(why).as_bytes())
        .unwrap();
    head.try_extend_from_slice(b": ").unwrap();
    head
}

/// The word at this place as it was given, empty where none is there.
pub fn blamed_word(words: &Words, at: u32) -> &str
    ensures { result.now ≡ blamed_word words.now at }
{
    words.get(at).unwrap_or("")
}
