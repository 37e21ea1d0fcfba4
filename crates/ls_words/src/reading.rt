//! Reading words.

ghost use Rattle.std.specs.Prelude.{◌≡◌, ◌≤◌, ◌+◌, false, length, drop, IfOk, Ok, Err};
ghost use Rattle.ls_words.specs.Fault.{Agrees, AgreesBy, IfUsage};
ghost use Rattle.ls_words.specs.Command.{command_of};
ghost use Rattle.ls_words.specs.CommandFacts.{IsWellFormed};
ghost use Rattle.ls_words.specs.Reading.{flagged, default_settings};
ghost use Rattle.ls_words.specs.FlaggedView.{as_flagged};

use crate::command::{Command, command_from};
use crate::fault::refusal;
use crate::flag_word::{is_end, is_flag};
use crate::given::given_at;
use crate::settings::{Settings, default_settings, with_given};
use crate::usage::{UsageWhy, WordsFault};
use crate::verb::{Verb, verb_of};
use crate::words::{Words, word_at};
use std::alloc::Global;

/// What the flags set, and where the plain words begin.
#[derive(Debug, Drop)]
struct Flagged {
    settings: Settings,
    first: u32,
}

/// Reads the flags behind the first word.
fn read_flags(alloc: Global, verb: Verb, words: &Words) -> Result<Flagged, WordsFault>
    requires { 1 ≤ length words.now }
    ensures value { AgreesBy as_flagged result (flagged verb 1 false (default_settings verb) (drop 1 words.now)) }
    ensures within { IfOk result (λ flagged. flagged.first ≤ length words.now) }
{
    let count = words.len();
    let mut settings = default_settings(verb);
    let mut at = 1;
    while at < count {
        let word = word_at(words, at);
        if !is_flag(word) {
            return Ok(Flagged {
                settings,
                first: at,
            });
        }
        if is_end(word) {
            return Ok(Flagged {
                settings,
                first: at + 1,
            });
        }
        let given = given_at(verb, words, at, word)?;
        settings = with_given(alloc, settings, &given)?;
        at = given.word + 1;
    }
    Ok(Flagged {
        settings,
        first: at,
    })
}

#[tactic(auto, using(crate::proofs::ReadingLemmas::read_in_turn))]
fn command_of(alloc: Global, words: &Words) -> Result<Command, WordsFault>
    ensures { Agrees result (command_of words.now) }
{
    let Some(first) = words.get(0) else {
        return Err(refusal(0, UsageWhy::NoCommand));
    };
    let Some(verb) = verb_of(first) else {
        return Err(refusal(0, UsageWhy::UnknownCommand));
    };
    let flagged = read_flags(alloc, verb, words)?;
    command_from(alloc, verb, words, flagged.first, flagged.settings)
}

/// The command that the words behind the program's name ask for. `Usage` exactly where they aren't of the
/// grammar: their first fault, with the index of the word that holds it. `Memory` for want of it. The
/// command's rounds are in its range, the path of its output leads to a file, and no path of it is empty.
pub fn read_words(alloc: Global, words: &Words) -> Result<Command, WordsFault>
    ensures ok { IfOk result (λ command. command_of words.now ≡ Ok command) }
    ensures well_formed { IfOk result IsWellFormed }
    ensures usage { IfUsage result (λ usage. command_of words.now ≡ Err usage) }
{
    command_of(alloc, words)
}
