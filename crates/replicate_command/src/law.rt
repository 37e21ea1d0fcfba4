//! Laws of replications.
//!
//! Each function does nothing: its clause is a statement on all replications, for the proofs of callers.

ghost use Rattle.replicate_command.specs.Laws.{RefusesAtOnce, ReplicationsFollow};

use crash_disk::{Disk, Out};
use live_gate::Live;

/// A caller that has no memory left for the request may answer so: nothing was done, and a replication that is refused
/// at once ends so.
pub fn refused_at_once<L: Live, S: Disk, O: Out>()
    ensures { RefusesAtOnce L.Live S.Disk O.Out }
{}

/// The end of a replication, and what a crash left at any moment of it, is a fit start of the next one.
pub fn replications_follow()
    ensures { ReplicationsFollow }
{}
