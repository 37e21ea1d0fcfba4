//! The name of a replica's file.

ghost use Rattle.std.specs.Option.{IfNone};
ghost use Rattle.std.specs.Prelude.{◌≡◌, ◌≤◌, IsTrue, IfSome};
ghost use Rattle.replica_store.specs.NameText.{is_level, IsName};

use ls_base::Txid;

/// The name of a transaction file: its level, and the first and the last transaction that it holds. The
/// level is 0, 1, 2, 3 or 9, and a file of level 9 begins with the first transaction.
#[derive(Clone, Copy, Debug, PartialEq, Eq, PartialOrd, Ord)]
pub struct FileName {
    pub level: u8,
    pub min: Txid,
    pub max: Txid,
    pub ghost on_level: { IsTrue (is_level level) },
    pub ghost in_order: { min ≤ max },
    pub ghost from_first: { level ≡ 9 → min ≡ 1 },
}

impl FileName {
    /// The name of these parts. `None` exactly where no file has them: the level is another, the
    /// transactions don't rise, or a file of level 9 doesn't begin with the first.
    pub fn new(level: u8, min: Txid, max: Txid) -> Option<FileName>
        ensures level { IfSome result (λ name. name.level ≡ level) }
        ensures min { IfSome result (λ name. name.min ≡ min) }
        ensures max { IfSome result (λ name. name.max ≡ max) }
        ensures valid { IfSome result (λ name. IsName name.level name.min name.max) }
        ensures only { IfNone result (IsName level min max → ⊥) }
    {
        let known = [0, 1, 2, 3, 9].contains(&level);
        if !known || min > max || (level == 9 && min.number() != 1) {
            return None;
        }
        Some(FileName { level, min, max })
    }
}
