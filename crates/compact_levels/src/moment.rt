//! Moments of files, and intervals.

ghost use Rattle.std.specs.Prelude.{◌≡◌, ◌↔◌, ◌<◌, ◌/◌, IsTrue};
ghost use Rattle.compact_levels.specs.Level.{interval};
ghost use Rattle.compact_levels.specs.Due.{is_same_name, file_moment};

use replica_store::{Dated, FileName};

/// Whether both have the same level and transactions.
fn is_same(name: &FileName, other: &FileName) -> bool
    ensures { result ≡ is_same_name name.now other.now }
{
    name.level == other.level && name.min == other.min && name.max == other.max
}

/// The moment that the list tells of a file.
pub fn moment_of(dated: &[Dated], name: &FileName) -> Option<u64>
    ensures { result ≡ file_moment dated.now name.now }
{
    for one in dated {
        if is_same(&one.name, name) {
            return Some(one.moment);
        }
    }
    None
}

/// The interval of a level that files are merged into, in milliseconds.
pub fn interval_of(level: u8) -> u64
    ensures { result ≡ interval level }
{
    match level {
        1 => 30_000,
        2 => 300_000,
        3 => 3_600_000,
        _ => 86_400_000,
    }
}

/// Whether a multiple of the level's interval came since the moment.
pub fn is_past(moment: u64, now: u64, level: u8) -> bool
    ensures { IsTrue result ↔ moment / interval level < now / interval level }
{
    let interval = interval_of(level);
    now / interval > moment / interval
}
