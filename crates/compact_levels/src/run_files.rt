//! The files of a run.

ghost use Rattle.std.specs.Prelude.{◌≡◌, ◌↔◌, ◌≤◌, ◌∷◌, ◌++◌, ℕ, List, length, IsTrue, IfOk, IfErr};
ghost use Rattle.replica_store.specs.declared.file_name.FileName.{FileName};
ghost use Rattle.replica_store.specs.Chain.{IsListOrdered};
ghost use Rattle.replica_store.specs.NameText.{IsName};
ghost use Rattle.compact_levels.specs.Merged.{AreRunFiles, IsRun};
ghost use Rattle.compact_levels.specs.RunFiles.{BeginsWith, IsPileBehind, EndsAt, IsMemory};
ghost use Rattle.compact_levels.specs.Run.{IsGapless};

use crate::merge_fault::MergeFault;
use crate::pile::goes_on_from;
use crate::run::Run;
use ls_base::Txid;
use replica_store::FileName;
use restore_plan::{PlanFault, plan};
use std::alloc::Global;

/// Whether it is a file of the level that begins with this transaction.
fn begins_with(name: &FileName, level: u8, min: Txid) -> bool
    ensures { IsTrue result ↔ BeginsWith level min name.now }
{
    name.level == level && name.min == min
}

/// How many of the names go on, the first from this transaction and each other from the end of the one before.
fn going_on(names: &[FileName], level: u8, end: Txid) -> usize
    ensures count { (rest behind : List FileName) (to : ℕ) → names.now ≡ rest ++ behind → IsGapless level end rest to
        → EndsAt level to behind → result ≡ length rest }
    ensures within { result ≤ length names.now }
{
    let mut end = end;
    for at in 0..names.len() {
        if !goes_on_from(&names[at], level, end.number()) {
            return at;
        }
        end = names[at].max;
    }
    names.len()
}

/// The first file of the level that begins with this transaction, and those behind it as long as each goes on from
/// the one before. Takes no memory.
fn pile_from(names: &[FileName], level: u8, min: Txid) -> &[FileName]
    ensures { (before : List FileName) (first : FileName) (rest behind : List FileName) (to : ℕ)
        → names.now ≡ before ++ first ∷ rest ++ behind → IsPileBehind level min before first rest to
        → EndsAt level to behind → result.now ≡ first ∷ rest }
{
    for at in 0..names.len() {
        if begins_with(&names[at], level, min) {
            let count = going_on(&names[at + 1..], level, names[at].max);
            return &names[at..at + 1 + count];
        }
    }
    &names[..0]
}

/// The chain to the transaction, to which one leads.
fn chain_to(alloc: Global, names: &[FileName], run: &Run) -> Result<Vec<FileName>, MergeFault>
    requires in_order { IsListOrdered names.now }
    requires run { IsRun names.now run.now }
    requires whole { run.now.level ≡ 9 }
    ensures files { IfOk result (λ files. AreRunFiles names.now run.now files.items) }
    ensures memory { IfErr result IsMemory }
{
    match plan(alloc, names, run.max) {
        Ok(chain) => Ok(chain.into_vec()),
        Err(PlanFault::MissingRange { .. }) => unreachable!(),
        Err(PlanFault::Memory) => Err(MergeFault::Memory),
    }
}

/// The files of a run that these names have, in their order. `Memory` for want of it, and no other answer.
pub fn files_of(alloc: Global, names: &[FileName], run: &Run) -> Result<Vec<FileName>, MergeFault>
    requires in_order { IsListOrdered names.now }
    requires run { IsRun names.now run.now }
    ensures files { IfOk result (λ files. AreRunFiles names.now run.now files.items) }
    ensures memory { IfErr result IsMemory }
{
    if run.level == 9 {
        return chain_to(alloc, names, run);
    }
    let pile = pile_from(names, run.level - 1, run.min);
    Ok(Vec::from_slice(alloc, pile)?)
}
