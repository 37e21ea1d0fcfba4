//! A flag with its value.

ghost use Rattle.std.specs.Prelude.{◌≡◌, ◌+◌, ◌<◌, ◌≤◌, length, drop, IfOk};
ghost use Rattle.ls_words.specs.Fault.{AgreesBy};
ghost use Rattle.ls_words.specs.Given.{next_word, given_at};
ghost use Rattle.ls_words.specs.GivenView.{as_given};

use crate::fault::refusal;
use crate::flag::{Flag, flag_of};
use crate::flag_word::named_of;
use crate::usage::{UsageWhy, WordsFault};
use crate::verb::Verb;
use crate::words::{Words, word_at};

/// A flag with its value, as it is written.
#[derive(Clone, Copy, Debug)]
pub struct Given<'w> {
    pub flag: Flag,
    pub text: &'w str,
    /// The index of the word that holds the value.
    pub word: u32,
}

/// The flag with the word behind `at` as its value, whatever that is. Refuses a flag that is the last word.
fn next_word<'w>(words: &'w Words, at: u32, flag: Flag) -> Result<Given<'w>, WordsFault>
    requires { at < length words.now }
    ensures value { AgreesBy as_given result (next_word at flag (drop (at + 1) words.now)) }
    ensures within { IfOk result (λ given.
        (at ≤ given.word) × (given.word ≤ at + 1) × (given.word < length words.now)) }
{
    let count = words.len();
    if at + 1 == count {
        return Err(refusal(count, UsageWhy::NeedsValue));
    }
    let text = word_at(words, at + 1);
    Ok(Given {
        flag,
        text,
        word: at + 1,
    })
}

/// The flag that the word at `at` names, with its value: behind `=`, or in the next word, or `true` for a
/// truth flag. Refuses what is no flag of the command, and a flag whose value is missing.
#[tactic(auto, unfolding(crate::specs::Given::given_at))]
pub fn given_at<'w>(
    verb: Verb,
    words: &'w Words,
    at: u32,
    word: &'w str,
) -> Result<Given<'w>, WordsFault>
    requires { at < length words.now }
    ensures value { AgreesBy as_given result (given_at verb at word.now (drop (at + 1) words.now)) }
    ensures within { IfOk result (λ given.
        (at ≤ given.word) × (given.word ≤ at + 1) × (given.word < length words.now)) }
{
    let Some(named) = named_of(word) else {
        return Err(refusal(at, UsageWhy::BadSyntax));
    };
    let Some(flag) = flag_of(verb, named.name) else {
        return Err(refusal(at, UsageWhy::UnknownFlag));
    };
    if let Some(text) = named.value {
        return Ok(Given {
            flag,
            text,
            word: at,
        });
    }
    match flag {
        Flag::Truth(_) => Ok(Given {
            flag,
            text: "true",
            word: at,
        }),
        Flag::Valued(_) => next_word(words, at, flag),
    }
}
