//! The names that are dropped, and the transactions that are lost with them.

ghost use Rattle.std.specs.Prelude.{◌≡◌};
ghost use Rattle.retention.specs.Drops.{AreDrops};

use ls_base::Txid;
use replica_store::{Dated, FileName};
use std::marker::Model;

/// The names that are dropped, with the list and the cut that they were chosen from.
#[derive(Debug, Drop)]
pub struct Drops {
    dated: Vec<Dated>,
    cut: u64,
    names: Vec<FileName>,
    lost: Vec<Txid>,
}

impl Model for Drops {
    ghost use Rattle.retention.specs.Drops.{Decision, AreDrops};

    ghost Value = { Decision };

    ghost view = { λ drops. record {
      dated = drops.dated.items;
      cut = drops.cut;
      names = drops.names.items;
      lost = drops.lost.items;
    } };

    ghost invariant = { λ drops. AreDrops drops.dated.items drops.cut drops.names.items drops.lost.items };
}

impl Drops {
    /// What was decided of these names by this cut.
    pub(crate) fn of(dated: Vec<Dated>, cut: u64, names: Vec<FileName>, lost: Vec<Txid>) -> Drops
        requires { AreDrops dated.items cut names.items lost.items }
        ensures { result ≡ record { dated = dated.items; cut = cut; names = names.items; lost = lost.items } }
    {
        Drops {
            dated,
            cut,
            names,
            lost,
        }
    }

    /// The dropped names, in list order.
    pub fn names(&self) -> &[FileName]
        ensures value { result.now ≡ self.now.names }
        ensures drops { AreDrops self.now.dated self.now.cut self.now.names self.now.lost }
    {
        self.names.as_slice()
    }

    /// The transactions that were retained before and aren't after, rising.
    pub fn lost(&self) -> &[Txid]
        ensures { result.now ≡ self.now.lost }
    {
        self.lost.as_slice()
    }
}
