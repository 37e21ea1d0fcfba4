//! The files that a restore applies.

ghost use Rattle.std.specs.Prelude.{◌≡◌, ◌≤◌, ℕ, List, length, IfOk, IsErrOf};
ghost use Rattle.replica_store.specs.declared.file_name.FileName.{FileName};
ghost use Rattle.replica_store.specs.Chain.{IsListOrdered, IsChain, IsRetained, BeginsOnce};
ghost use Rattle.restore_plan.specs.ChosenChain.{IsChosenChain};
ghost use Rattle.restore_plan.specs.Retained.{IsGreatestRetainedBelow};
ghost use Rattle.restore_plan.specs.declared.chain.PlanFault.TheVariants.{Memory};

use crate::listing::Listing;
use crate::sweep::Sweep;
use ls_base::Txid;
use replica_store::{FileName, FileNames};
use std::alloc::Global;
use thiserror::Error;

/// Why there is no plan.
#[derive(Clone, Copy, Debug, PartialEq, Eq, Error)]
pub enum PlanFault {
    /// No chain leads to the transaction. The greatest retained one below it is `after`, 0 where there is none.
    #[error("no files lead from transaction {after} to the one that is asked for")]
    MissingRange { after: u64 },
    /// There was no memory for the plan.
    #[error("out of memory")]
    Memory,
}

impl From<ls_base::Memory> for PlanFault {
    ghost from_gives = { λ _ e. e ≡ Memory };

    fn from(_: ls_base::Memory) -> PlanFault {
        PlanFault::Memory
    }
}

/// The files that lead to the transaction: at each step, of those that may come next and don't end beyond it,
/// the one that reaches furthest, of these one of the highest level, of these the one that begins last. No chain
/// to the transaction has fewer files, and only the first of them begins with the first transaction. The names
/// stand in list order. `MissingRange` exactly where no chain leads there, `Memory` for want of it.
pub fn plan(alloc: Global, names: &[FileName], t: Txid) -> Result<FileNames, PlanFault>
    requires in_order { IsListOrdered names.now }
    ensures chosen { IfOk result (λ chain. IsChosenChain names.now t chain) }
    ensures chain { IfOk result (λ chain. IsChain names.now t chain) }
    ensures once { IfOk result BeginsOnce }
    ensures fewest { IfOk result (λ chain. (other : List FileName) → IsChain names.now t other
        → length chain ≤ length other) }
    ensures missing { (after : ℕ) → IsErrOf result (PlanFault.MissingRange after) → IsRetained names.now t → ⊥ }
    ensures after { (after : ℕ) → IsErrOf result (PlanFault.MissingRange after)
        → IsGreatestRetainedBelow names.now t after }
{
    let names = Listing::of_names(names);
    let mut sweep = Sweep::new(&names, t.number());
    let mut chain = FileNames::new(alloc);
    while let Some(name) = sweep.step() {
        chain.push(name)?;
    }
    let after = sweep.after();
    if after != t.number() {
        return Err(PlanFault::MissingRange { after });
    }
    Ok(chain)
}
