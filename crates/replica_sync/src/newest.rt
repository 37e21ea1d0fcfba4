//! The newest file of a replica.

ghost use Rattle.std.specs.Prelude.{◌≡◌};
ghost use Rattle.replica_sync.specs.Newest as spec;

use replica_store::Dated;

/// The greatest transaction with which a file ends, 0 where there is no file.
pub(crate) fn newest_of(dated: &[Dated]) -> u64
    ensures { result ≡ spec.newest_of dated.now }
{
    let mut newest = 0;
    for file in dated {
        newest = file.name.max.number().max(newest);
    }
    newest
}

/// The moment of what is stored now: `now`, or that of the newest file where it is greater. `dated` are the replica's
/// files in list order, and of those that end with the newest transaction the first tells the moment. Takes no memory.
pub fn next_moment(dated: &[Dated], now: u64) -> u64
    ensures { result ≡ spec.next_moment dated.now now }
{
    let newest = newest_of(dated);
    for file in dated {
        if file.name.max.number() == newest {
            return now.max(file.moment);
        }
    }
    now
}
