//! The name of the next file.

ghost use Rattle.std.specs.Prelude.{◌≡◌, ◌^◌, ◌<◌, IfOk, IfErr, OnOk};
ghost use Rattle.replica_sync.specs.declared.answer.SyncFault.TheVariants.{TxidSpent};
ghost use Rattle.replica_store.specs.Listing.{IsValid};
ghost use Rattle.replica_sync.specs.Answers.{last_txid};
ghost use Rattle.replica_sync.specs.Newest as spec;
ghost use Rattle.replica_sync.specs.Storing.{IsNextName};

use crate::answer::SyncFault;
use crate::newest::newest_of;
use ls_base::Txid;
use replica_store::{Dated, FileName};
use wal_follow::Wanted;

/// The level of pieces, and that of whole states.
const PIECE_LEVEL: u8 = 0;

const WHOLE_LEVEL: u8 = 9;

/// The name of the file of the transaction behind the newest one: a piece holds that transaction alone, a whole
/// state all from the first on. `TxidSpent` exactly where the newest transaction is the last one that there can be.
pub(crate) fn next_name(dated: &[Dated], wanted: &Wanted) -> Result<FileName, SyncFault>
    ensures ok { IfOk result (λ name. IsNextName dated.now wanted.now name) }
    ensures valid { IfOk result (λ name. IsValid name) }
    ensures left { OnOk result (spec.newest_of dated.now < last_txid) }
    ensures err { IfErr result (λ fault. (fault ≡ TxidSpent) × (spec.newest_of dated.now ≡ last_txid)) }
{
    let newest = newest_of(dated);
    if newest == u64::MAX {
        return Err(SyncFault::TxidSpent);
    }
    let Some(txid) = Txid::new(newest + 1) else {
        unreachable!()
    };
    match wanted {
        Wanted::All => Ok(whole_name(txid)),
        Wanted::Listed(_) => Ok(piece_name(txid)),
    }
}

fn piece_name(txid: Txid) -> FileName
    requires some { 0 < txid }
    requires fits { txid < 2 ^ 64 }
    ensures name { spec.IsPieceName result txid }
    ensures valid { IsValid result }
{
    FileName {
        level: PIECE_LEVEL,
        min: txid,
        max: txid,
    }
}

fn whole_name(txid: Txid) -> FileName
    requires some { 0 < txid }
    requires fits { txid < 2 ^ 64 }
    ensures name { spec.IsWholeName result txid }
    ensures valid { IsValid result }
{
    let Some(first) = Txid::new(1) else {
        unreachable!()
    };
    FileName {
        level: WHOLE_LEVEL,
        min: first,
        max: txid,
    }
}
