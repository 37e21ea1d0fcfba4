//! What the flags set.

ghost use Rattle.std.specs.Prelude.{◌≡◌, ◌^◌, ◌<◌, ◌≤◌, IfSome, Ok};
ghost use Rattle.ls_words.specs.Fault.{Agrees, or_fault};
ghost use Rattle.ls_words.specs.Value.{number_of};
ghost use Rattle.ls_words.specs.Path.{path_of};
ghost use Rattle.ls_words.specs.Reading.{default_settings, with_truth, with_value, with_given};
ghost use Rattle.ls_words.specs.GivenView.{as_given};

use crate::fault::{kept, or_fault, refusal};
use crate::flag::{Flag, TruthFlag, ValuedFlag};
use crate::given::Given;
use crate::moment::moment_of;
use crate::path::is_path;
use crate::text::Text;
use crate::usage::{UsageWhy, WordsFault};
use crate::value::{duration_of, number_of, truth_of};
use crate::verb::Verb;
use ls_base::Txid;
use std::alloc::Global;

/// What the flags of a command set so far.
#[derive(Debug, Drop)]
pub struct Settings {
    pub rounds: u32,
    /// How long files are retained, in ms.
    pub keep: u64,
    pub at_rest: bool,
    pub output: Option<Text>,
    pub txid: Option<Txid>,
    /// In ms since 1970-01-01T00:00:00Z.
    pub moment: Option<i64>,
    pub if_db_not_exists: bool,
    pub if_replica_exists: bool,
    pub seed: u64,
}

/// What stands where no flag sets it.
pub fn default_settings(verb: Verb) -> Settings
    ensures { result ≡ default_settings verb }
{
    let rounds = match verb {
        Verb::Demo => 10,
        _ => 1,
    };
    Settings {
        rounds,
        keep: 86_400_000,
        at_rest: false,
        output: None,
        txid: None,
        moment: None,
        if_db_not_exists: false,
        if_replica_exists: false,
        seed: 1,
    }
}

/// The count of rounds that 1 to `most` digits write, from 1 to `high`. `None` exactly for any other text.
fn rounds_of(text: &str, most: usize, high: u64) -> Option<u32>
    requires { high ≤ 1000000 }
    ensures { result ≡ number_of most 1 high text.now }
{
    let rounds = number_of(text, most, 1, high)?;
    Some(rounds as u32)
}

/// The path of an output, kept. `BadPath` exactly where it leads to no file.
#[tactic(auto, unfolding(crate::specs::Path::path_of))]
fn path_at(alloc: Global, word: u32, text: &str) -> Result<Text, WordsFault>
    ensures { Agrees result (or_fault word UsageWhy.BadPath (path_of text.now)) }
{
    if !is_path(text) {
        return Err(refusal(word, UsageWhy::BadPath));
    }
    kept(alloc, text)
}

fn with_truth(mut settings: Settings, flag: TruthFlag, truth: bool) -> Settings
    ensures { result ≡ with_truth flag truth settings }
{
    match flag {
        TruthFlag::AtRest => settings.at_rest = truth,
        TruthFlag::IfDbNotExists => settings.if_db_not_exists = truth,
        TruthFlag::IfReplicaExists => settings.if_replica_exists = truth,
    }
    settings
}

fn with_value(
    alloc: Global,
    mut settings: Settings,
    flag: ValuedFlag,
    text: &str,
    word: u32,
) -> Result<Settings, WordsFault>
    ensures { Agrees result (with_value flag text.now word settings) }
{
    match flag {
        ValuedFlag::Rounds => {
            settings.rounds = or_fault(word, UsageWhy::BadNumber, rounds_of(text, 7, 1_000_000))?
        }
        ValuedFlag::DemoRounds => {
            settings.rounds = or_fault(word, UsageWhy::BadNumber, rounds_of(text, 4, 1000))?
        }
        ValuedFlag::Seed => {
            settings.seed = or_fault(word, UsageWhy::BadNumber, number_of(text, 20, 0, u64::MAX))?
        }
        ValuedFlag::Retention => {
            settings.keep = or_fault(word, UsageWhy::BadDuration, duration_of(text))?
        }
        ValuedFlag::Txid => {
            settings.txid = Some(or_fault(word, UsageWhy::BadTxid, Txid::from_hex(text))?)
        }
        ValuedFlag::Timestamp => {
            settings.moment = Some(or_fault(word, UsageWhy::BadMoment, moment_of(text))?)
        }
        ValuedFlag::Output => settings.output = Some(path_at(alloc, word, text)?),
    }
    Ok(settings)
}

/// The settings after one more flag, or the fault of its value.
#[tactic(auto, unfolding(crate::specs::Reading::with_given))]
pub fn with_given(alloc: Global, settings: Settings, given: &Given) -> Result<Settings, WordsFault>
    ensures { Agrees result (with_given (as_given given.now) settings) }
{
    match given.flag {
        Flag::Truth(flag) => {
            let truth = or_fault(given.word, UsageWhy::BadTruth, truth_of(given.text))?;
            Ok(with_truth(settings, flag, truth))
        }
        Flag::Valued(flag) => with_value(alloc, settings, flag, given.text, given.word),
    }
}
