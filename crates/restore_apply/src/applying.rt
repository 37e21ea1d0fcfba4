//! Restoring a database from a plan.

ghost use Rattle.std.specs.Prelude.{◌≡◌, ◌≢◌, ◌≤◌, ◌*◌, [], None, length, IfOk, IfErr, IsErrOf};
ghost use Rattle.crash_disk.specs.Told.{IfTold};
ghost use Rattle.crash_disk.specs.Files.{file_at, files_after};
ghost use Rattle.ltx_reader.specs.ReaderGiven.{GivesAtMost};
ghost use Rattle.page_cursors.specs.Costs.{Takes, nothing, plan_cost};
ghost use Rattle.restore_apply.specs.declared.restored.RestoreFault.TheVariants as fault;
ghost use Rattle.restore_apply.specs.Restoring.{IsLastOf, Restores, ExplainsRestore};

use crate::gathered::Gathered;
use crate::output::{refuse, temporary_name, write_output};
use crate::restored::{RestoreFault, Restored};
use crash_disk::Disk;
use ls_base::{Steps, Txid};
use page_cursors::Cursors;
use replica_store::FileName;
use std::alloc::Global;
use std::sync::ledger::Ledger;

/// The last transaction of a plan.
fn last_txid(plan: &[FileName]) -> Txid
    requires some { plan.now ≢ [] }
    ensures { IsLastOf plan.now result }
{
    plan[plan.len() - 1].max
}

/// Writes the database that the plan's files make, applied one after another to nothing, under the name in
/// `target`.
///
/// The pages go to the name with `.litestream-tmp` behind it. That file is brought to the disk and given the
/// name, and then the names are brought to the disk. All memory is taken before: one page, 64 KiB of the output and
/// about 250 bytes a file. `steps` counts the pages that are read: at most the page blocks of the plan's files.
///
/// `Damaged` and `PageMissing` come once the files before the one that they name were read to their ends. After
/// them and after `Store` the name is absent and the temporary file is removed, also one that an earlier stop left.
/// After `Target` the name is absent or has the whole database. After `Memory` no call was made on `target`.
pub fn restore<S: Disk, T: Disk, L: Ledger>(
    alloc: Global,
    store: &mut S,
    target: &mut T,
    name: &str,
    plan: &[FileName],
    steps: &mut Steps<L>,
) -> Result<Restored, RestoreFault>
    requires some { plan.now ≢ [] }
    requires absent { IfTold (T.told target.old) (λ events. file_at events name.now ≡ None) }
    ensures ok { IfOk result (Restores (S.told store.old) plan.now name.now (T.told target.old) (T.told target.new)) }
    ensures explained { IfErr result (ExplainsRestore (S.told store.old) plan.now name.now (T.told target.old)
        (T.told target.new) (S.fault_count store.old) (S.fault_count store.new) (T.fault_count target.old)
        (T.fault_count target.new)) }
    // No page block and no byte of a file is read twice, but for the numbers beside an index.
    ensures takes { IfTold (S.told store.old) (λ events. Takes (plan_cost (files_after events) plan.now) nothing
        steps.old steps.new (S.given store.old) (S.given store.new)) }
    // Where memory ran out, at most the headers were read.
    ensures little { IsErrOf result fault.Memory → GivesAtMost (100 * length plan.now)
        (S.given store.old) (S.given store.new) }
    ensures store_unchanged { S.told store.new ≡ S.told store.old }
    ensures same_folder { S.folder store.new ≡ S.folder store.old }
    ensures same_target_folder { T.folder target.new ≡ T.folder target.old }
    ensures store_later { S.fault_count store.old ≤ S.fault_count store.new }
    ensures target_later { T.fault_count target.old ≤ T.fault_count target.new }
{
    let temporary = temporary_name(alloc, name)?;
    let gathered = Gathered::new(alloc)?;
    let mut cursors = match Cursors::begin(alloc, store, plan, steps) {
        Ok(cursors) => cursors,
        Err(fault) => return Err(refuse(target, temporary.as_str(), fault)),
    };
    let pages = cursors.commit;
    let temporary = temporary.as_str();
    write_output(
        &mut cursors,
        store,
        target,
        temporary,
        name,
        gathered,
        steps,
    )?;
    Ok(Restored {
        txid: last_txid(plan),
        pages,
    })
}
