//! The plain words behind the flags.

ghost use Rattle.std.specs.Prelude.{◌≡◌, ◌+◌, ◌-◌, ◌<◌, ◌≤◌, [], length};
ghost use Rattle.std.specs.Result.{result_map_both};
ghost use Rattle.std.specs.List.{slice_index_or};
ghost use Rattle.ls_words.specs.Fault.{Agrees};
ghost use Rattle.ls_words.specs.Plain.{replica_of, replica_at, database_at, counted};

use crate::fault::{kept, refusal};
use crate::path::names_scheme;
use crate::text::Text;
use crate::usage::{UsageWhy, WordsFault};
use crate::words::{Words, word_at};
use std::alloc::Global;

/// Refuses too few plain words from `first` on, and too many.
#[tactic(auto, unfolding(crate::specs::Plain::counted))]
pub fn counted(words: &Words, first: u32, takes: u32) -> Result<(), WordsFault>
    requires first_in { first ≤ length words.now }
    requires few { takes ≤ 2 }
    ensures { Agrees result (counted (length words.now) first takes) }
{
    let count = words.len();
    if count - first < takes {
        return Err(refusal(count, UsageWhy::MissingWord));
    }
    if count - first > takes {
        return Err(refusal(first + takes, UsageWhy::ExtraWord));
    }
    Ok(())
}

/// The folder of a replica that the word names: the word without `file://` at its front. Refuses an empty
/// one, and a word of another scheme.
#[tactic(auto, unfolding(crate::specs::Plain::replica_of))]
fn replica_of(word: &str) -> Result<&str, UsageWhy>
    ensures { result_map_both (λ folder. folder.now) (λ why. why) result ≡ replica_of word.now }
{
    if word.is_empty() {
        return Err(UsageWhy::BadPath);
    }
    let Some(folder) = word.strip_prefix("file://") else {
        if names_scheme(word) {
            return Err(UsageWhy::RemoteStore);
        }
        return Ok(word);
    };
    if folder.is_empty() {
        return Err(UsageWhy::BadPath);
    }
    Ok(folder)
}

/// The folder of the replica that the word at this place names, kept.
#[tactic(auto, unfolding(crate::specs::Plain::replica_at))]
pub fn replica_at(alloc: Global, words: &Words, at: u32) -> Result<Text, WordsFault>
    ensures { Agrees result (replica_at at (slice_index_or words.now at [])) }
{
    match replica_of(word_at(words, at)) {
        Ok(folder) => kept(alloc, folder),
        Err(why) => Err(refusal(at, why)),
    }
}

/// The path of a database that stands at this place, kept. Refuses an empty word.
#[tactic(auto, unfolding(crate::specs::Plain::database_at))]
pub fn database_at(alloc: Global, words: &Words, at: u32) -> Result<Text, WordsFault>
    ensures { Agrees result (database_at at (slice_index_or words.now at [])) }
{
    let word = word_at(words, at);
    if word.is_empty() {
        return Err(refusal(at, UsageWhy::BadPath));
    }
    kept(alloc, word)
}
