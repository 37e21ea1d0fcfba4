//! Files that piled up in a level.

ghost use Rattle.std.specs.Prelude.{◌≡◌, ◌↔◌, ◌++◌, ◌∷◌, [], List, IsTrue, IsFalse, IfSome};
ghost use Rattle.std.specs.Option.{IfNone};
ghost use Rattle.std.specs.List.{All};
ghost use Rattle.replica_store.specs.declared.file_name.FileName.{FileName};
ghost use Rattle.replica_store.specs.Chain.{names_of};
ghost use Rattle.compact_levels.specs.Run.{BeginsBeyond, GoesOnFrom};
ghost use Rattle.compact_levels.specs.Pile.{PilesUp, GoesOnAll, IsEndedBy, IsPileSoFar};

use crate::files::Files;
use replica_store::{Dated, FileName};

/// Whether it is a file of the level that begins beyond this transaction.
fn begins_beyond(name: &FileName, level: u8, after: u64) -> bool
    ensures { IsTrue result ↔ BeginsBeyond level after name.now }
{
    name.level == level && name.min.number() > after
}

/// Whether it is a file of the level that begins one past this transaction.
pub fn goes_on_from(name: &FileName, level: u8, end: u64) -> bool
    ensures { IsTrue result ↔ GoesOnFrom level end name.now }
{
    name.level == level && name.min.number() - 1 == end
}

/// Whether files were begun, and the name doesn't go on from them.
fn is_ended_by(files: &Option<Files>, name: &FileName, level: u8) -> bool
    ensures ended { IsTrue result → IsEndedBy level files.now name.now }
    ensures goes_on { IsFalse result → GoesOnAll level files.now name.now }
{
    match files {
        Some(files) => !goes_on_from(name, level, files.end.number()),
        None => false,
    }
}

/// The files that some names end with, with this name more.
fn pile_with(files: Option<Files>, name: FileName, level: u8, after: u64) -> Option<Files>
    requires { GoesOnAll level files name }
    ensures { (names : List FileName) → IsPileSoFar names level after files
        → IsPileSoFar (names ++ name ∷ []) level after result }
{
    if let Some(files) = files {
        return Some(Files {
            first: files.first,
            end: name.max,
        });
    }
    if !begins_beyond(&name, level, after) {
        return None;
    }
    Some(Files {
        first: name,
        end: name.max,
    })
}

/// The first file of the level that begins beyond `after`, and those behind it as long as each begins one past the
/// end of the one before. `None` exactly where no file of the level begins so.
pub fn pile_of(dated: &[Dated], level: u8, after: u64) -> Option<Files>
    ensures found { IfSome result (PilesUp (names_of dated.now) level after) }
    ensures none { IfNone result (All (λ name. BeginsBeyond level after name → ⊥) (names_of dated.now)) }
{
    let mut files = None;
    for one in dated {
        if is_ended_by(&files, &one.name, level) {
            return files;
        }
        files = pile_with(files, one.name, level, after);
    }
    files
}
