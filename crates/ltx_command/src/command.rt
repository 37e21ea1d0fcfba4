//! Listing the files of a replica.

ghost use Rattle.ltx_command.specs.Lists.{Lists};
ghost use Rattle.ltx_command.specs.Seen.{seen_of};

use crate::gathering::gather;
use crate::law::laws;
use crash_disk::{Disk, Out};
use ls_answers::Why;
use replica_listing::print_listing;
use std::alloc::Global;

/// Prints the listing of the replica in this folder, to which the disk is attached: a line with the names of the
/// columns, and a line for each file in list order. Names that no file of a replica has are passed over. `Damaged`
/// with the first file in list order whose header isn't one of its name's transactions; `StoreFault`, `SinkFault`
/// and `Memory` for faults of the disk and of the output and for want of memory. Changes no file.
pub fn list_replica<S: Disk, O: Out>(
    alloc: Global,
    replica: &str,
    store: &mut S,
    out: &mut O,
) -> Why
    ensures { Lists (seen_of S.Disk O.Out replica.now store.old store.new out.old out.new) result }
{
    laws();
    let found = match gather(alloc, replica, store) {
        Ok(found) => found,
        Err(stop) => return stop.why(),
    };
    let Ok(()) = print_listing(out, found.dated.as_slice(), found.sizes.as_slice()) else {
        return Why::SinkFault;
    };
    Why::Done
}
