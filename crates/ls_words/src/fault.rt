//! Answers that are a fault of a word or want of memory.

ghost use Rattle.std.specs.Prelude.{◌≡◌, Ok};
ghost use Rattle.ls_words.specs.Fault.{Agrees, or_fault};

use crate::text::Text;
use crate::usage::{Usage, UsageWhy, WordsFault};
use std::alloc::Global;

/// The fault of this word.
pub fn refusal(word: u32, why: UsageWhy) -> WordsFault
    ensures { result ≡ WordsFault.Usage (record { word = word; why = why }) }
{
    WordsFault::Usage(Usage { word, why })
}

/// What was read from the word, or the fault of that word.
pub fn or_fault<T>(word: u32, why: UsageWhy, read: Option<T>) -> Result<T, WordsFault>
    ensures { Agrees result (or_fault word why read) }
{
    match read {
        Some(value) => Ok(value),
        None => Err(refusal(word, why)),
    }
}

/// A text of a command's own. `Memory` for want of it.
pub fn kept(alloc: Global, text: &str) -> Result<Text, WordsFault>
    ensures { Agrees result (Ok text.now) }
{
    match Text::copied(alloc, text) {
        Ok(text) => Ok(text),
        Err(_) => Err(WordsFault::Memory),
    }
}
