//! What is printed for each kind of damage.

use crate::content::{PATH, name_of};
use ltx_format::LtxFault;
use replica_store::{Damage, StoreError};
use std::alloc::Global;
use std::test::Fail;

/// Each kind of damage with its text.
const TEXTS: [(Damage, &str); 15] = [
    (Damage::File(LtxFault::Short), "short"),
    (Damage::File(LtxFault::BadMagic), "bad magic"),
    (Damage::File(LtxFault::Compressed), "compressed"),
    (Damage::File(LtxFault::BadFlags), "bad flags"),
    (Damage::File(LtxFault::BadPageSize), "bad page size"),
    (Damage::File(LtxFault::BadCommit), "bad commit"),
    (Damage::File(LtxFault::BadRange), "bad range"),
    (Damage::File(LtxFault::BadReserved), "bad reserved field"),
    (Damage::File(LtxFault::BadOrder(9)), "bad page order at 9"),
    (
        Damage::File(LtxFault::BadSum { kept: 1, found: 2 }),
        "bad checksum",
    ),
    (Damage::File(LtxFault::Extra), "extra bytes"),
    (Damage::File(LtxFault::BadIndex(0)), "bad index at 0"),
    (
        Damage::File(LtxFault::BadIndex(4_294_967_295)),
        "bad index at 4294967295",
    ),
    (Damage::NameDiffers, "name differs"),
    (Damage::SizeDiffers, "page size differs"),
];

/// The text of the damage, and that of an error which tells of it.
fn shown(alloc: Global, damage: Damage) -> Result<(String, String), Fail> {
    let error = StoreError::Damaged(name_of(PATH)?, damage);
    Ok((
        format!(in alloc; "{damage}")?,
        format!(in alloc; "{error}")?,
    ))
}

#[test]
fn each_damage_has_its_text(rt: HostRuntime) -> Result<(), Fail> {
    for (damage, text) in TEXTS {
        let (alone, told) = shown(rt.alloc(), damage)?;
        assert_eq!(rt; alone.as_str(), text);
        assert_eq!(rt; told.as_str(), text);
    }
    Ok(())
}
