//! Commands.

ghost use Rattle.std.specs.Prelude.{◌≡◌, ◌+◌, ◌≤◌, ◌<◌, [], length};
ghost use Rattle.std.specs.List.{slice_index_or};
ghost use Rattle.ls_words.specs.Fault.{Agrees};
ghost use Rattle.ls_words.specs.Command.{target_of, replicate_of, restore_of, ltx_of, command_from};

use crate::fault::refusal;
use crate::plain::{counted, database_at, replica_at};
use crate::settings::Settings;
use crate::text::Text;
use crate::usage::{UsageWhy, WordsFault};
use crate::verb::{Verb, plain_words};
use crate::words::Words;
use ls_base::Txid;
use std::alloc::Global;

/// What a command line asks for.
#[derive(Debug, Drop)]
pub enum Command {
    /// Back up the database at `db` to the replica, in so many rounds.
    Replicate {
        /// The path of the database.
        db: Text,
        /// The folder of the replica.
        replica: Text,
        /// 1 to 1000000.
        rounds: u32,
        /// How long files are retained, in ms.
        keep: u64,
        /// Whether nobody else has the database open.
        at_rest: bool,
    },
    /// Restore the target from the replica to the output.
    Restore {
        /// The path of the output, which leads to a file.
        output: Text,
        /// The folder of the replica.
        replica: Text,
        /// Which transaction.
        target: Target,
        /// Whether an output that exists is left as it is.
        if_db_not_exists: bool,
        /// Whether a replica without files is no fault.
        if_replica_exists: bool,
    },
    /// List the files of the replica.
    Ltx {
        /// The folder of the replica.
        replica: Text,
    },
    /// Run the demonstration.
    Demo {
        /// The seed of its writer.
        seed: u64,
        /// 1 to 1000.
        rounds: u32,
    },
}

/// Which transaction a restore asks for.
#[derive(Clone, Copy, Debug, PartialEq, Eq)]
pub enum Target {
    /// The newest of the replica.
    Newest,
    /// This one.
    At(Txid),
    /// The newest that was recorded at this moment or before, in ms since 1970-01-01T00:00:00Z.
    Moment(i64),
}

/// The target of a restore. `BothGiven` exactly where both are given.
fn target_of(count: u32, txid: Option<Txid>, moment: Option<i64>) -> Result<Target, WordsFault>
    ensures { Agrees result (target_of count txid moment) }
{
    match (txid, moment) {
        (None, None) => Ok(Target::Newest),
        (Some(txid), None) => Ok(Target::At(txid)),
        (None, Some(moment)) => Ok(Target::Moment(moment)),
        (Some(_), Some(_)) => Err(refusal(count, UsageWhy::BothGiven)),
    }
}

#[tactic(auto, unfolding(crate::specs::Command::replicate_of))]
fn replicate_of(
    alloc: Global,
    words: &Words,
    first: u32,
    settings: &Settings,
) -> Result<Command, WordsFault>
    requires { first + 2 ≡ length words.now }
    ensures { Agrees result (replicate_of words.now first settings.now) }
{
    let db = database_at(alloc, words, first)?;
    let replica = replica_at(alloc, words, words.len() - 1)?;
    Ok(Command::Replicate {
        db,
        replica,
        rounds: settings.rounds,
        keep: settings.keep,
        at_rest: settings.at_rest,
    })
}

#[tactic(auto, unfolding(crate::specs::Command::restore_of))]
fn restore_of(
    alloc: Global,
    words: &Words,
    first: u32,
    settings: Settings,
) -> Result<Command, WordsFault>
    ensures { Agrees result (restore_of words.now first settings) }
{
    let count = words.len();
    let replica = replica_at(alloc, words, first)?;
    let target = target_of(count, settings.txid, settings.moment);
    let (if_db_not_exists, if_replica_exists) = (
        settings.if_db_not_exists,
        settings.if_replica_exists,
    );
    let Some(output) = settings.output else {
        return Err(refusal(count, UsageWhy::NeedsOutput));
    };
    Ok(Command::Restore {
        output,
        replica,
        target: target?,
        if_db_not_exists,
        if_replica_exists,
    })
}

#[tactic(auto, unfolding(crate::specs::Command::ltx_of))]
fn ltx_of(alloc: Global, words: &Words, first: u32) -> Result<Command, WordsFault>
    ensures { Agrees result (ltx_of words.now first) }
{
    let replica = replica_at(alloc, words, first)?;
    Ok(Command::Ltx { replica })
}

/// The command that the flags and the plain words from `first` on ask for, or their first fault.
#[tactic(auto, unfolding(crate::specs::Command::command_from))]
pub fn command_from(
    alloc: Global,
    verb: Verb,
    words: &Words,
    first: u32,
    settings: Settings,
) -> Result<Command, WordsFault>
    requires { first ≤ length words.now }
    ensures { Agrees result (command_from verb words.now first settings) }
{
    counted(words, first, plain_words(verb))?;
    match verb {
        Verb::Replicate => replicate_of(alloc, words, first, &settings),
        Verb::Restore => restore_of(alloc, words, first, settings),
        Verb::Ltx => ltx_of(alloc, words, first),
        Verb::Demo => Ok(Command::Demo {
            seed: settings.seed,
            rounds: settings.rounds,
        }),
    }
}
