//! The run that is due at a level.

ghost use Rattle.std.specs.Prelude.{◌≡◌, ◌<◌, ℕ, List, IfSome, unwrap_or};
ghost use Rattle.std.specs.Option.{IfNone, IsSomeAnd};
ghost use Rattle.replica_store.specs.declared.file_name.FileName.{FileName};
ghost use Rattle.replica_store.specs.Chain.{IsListOrdered, names_of};
ghost use Rattle.replica_store.specs.NameText.{IsName};
ghost use Rattle.compact_levels.specs.Level.{IsMergeLevel, IsOfLevel, IsEndOf};
ghost use Rattle.compact_levels.specs.Due.{file_moment, IsDue};
ghost use Rattle.compact_levels.specs.Pile.{AreFilesFor, IsLastSoFar, IsSameName};
ghost use Rattle.compact_levels.specs.declared.files.Files.{Files};
ghost use Rattle.compact_levels.specs.declared.run.Run.{Run};

use crate::files::Files;
use crate::last::last_of;
use crate::moment::{is_past, moment_of};
use crate::pile::pile_of;
use crate::run::Run;
use crate::whole::chain_to_newest;
use replica_store::{Dated, FileName};

/// The transaction that a level's last file ends with, 0 where there is none.
fn end_of(last: &Option<FileName>) -> u64
    ensures { (names : List FileName) (level : ℕ) → IsLastSoFar names level last.now
        → IsEndOf names level result }
{
    match last {
        Some(name) => name.max.number(),
        None => 0,
    }
}

/// The moment of a level's last file or, where there is none, of the run's first.
fn waited_since(dated: &[Dated], last: &Option<FileName>, first: &FileName) -> Option<u64>
    ensures { result ≡ file_moment dated.now (unwrap_or last.now first.now) }
{
    match last {
        Some(last) => moment_of(dated, last),
        None => moment_of(dated, first),
    }
}

/// The first file and the end of the run into the level, whose own files end with `after`.
fn files_for(dated: &[Dated], level: u8, after: u64) -> Option<Files>
    requires in_order { IsListOrdered (names_of dated.now) }
    requires level { IsMergeLevel level }
    ensures found { IfSome result (AreFilesFor (names_of dated.now) level after) }
    ensures only { (other : Files) → AreFilesFor (names_of dated.now) level after other
        → IsSomeAnd result (λ files. IsSameName files.first other.first) }
{
    if level == 9 {
        return chain_to_newest(dated, after);
    }
    pile_of(dated, level - 1, after)
}

/// The run that is due at level 1, 2, 3 or 9, `now` in milliseconds since 1970-01-01T00:00:00Z. `None` exactly
/// where none is. No file of the level ends as late as the run, so its name isn't in the list.
///
/// Below level 9 the run is the first file of the level below that begins beyond the end of the level's own files,
/// and those behind it in the list as long as each begins one past the end of the one before. It stops at the first
/// that doesn't, also where a later one would. For level 9 it is the plan to the newest transaction, where that is
/// retained and beyond the end of the level's own files. A run may have one file.
///
/// It is due where a multiple of the level's interval came since the moment of the level's last file, or of the
/// run's first file where the level has none: never where `now` is before that. The last file of a level is the one
/// that ends last, of several the first in the list, also where no chain leads over it. Intervals are 30 seconds
/// for level 1, 5 minutes for 2, an hour for 3 and a day for 9.
///
/// The names stand in list order, each once. Takes no memory.
pub fn due(dated: &[Dated], level: u8, now: u64) -> Option<Run>
    requires in_order { IsListOrdered (names_of dated.now) }
    requires level { IsMergeLevel level }
    ensures due { IfSome result (IsDue dated.now now) }
    ensures level { IfSome result (λ run. run.level ≡ level) }
    ensures none { IfNone result ((run : Run) → run.level ≡ level → IsDue dated.now now run → ⊥) }
    ensures name { IfSome result (λ run. IsName run.level run.min run.max) }
    ensures new { IfSome result (λ run. (name : FileName) → IsOfLevel (names_of dated.now) level name
        → name.max < run.max) }
{
    let last = last_of(dated, level);
    let files = files_for(dated, level, end_of(&last))?;
    let moment = waited_since(dated, &last, &files.first)?;
    if !is_past(moment, now, level) {
        return None;
    }
    Some(Run {
        level,
        min: files.first.min,
        max: files.end,
    })
}
