//! The line of each kind of round.

use crate::{Round, Synced, round_line};
use ls_base::Txid;
use replica_store::FileName;
use std::process::Abort;
use std::test::*;

fn name(level: u8, min: u64, max: u64) -> Result<FileName, Fail> {
    let first = Txid::new(min).ok_or("a first transaction")?;
    let last = Txid::new(max).ok_or("a last transaction")?;
    Ok(FileName::new(level, first, last).ok_or("a name")?)
}

fn quiet(sync: Synced) -> Round {
    Round {
        sync,
        passed: false,
        merged: 0,
        dropped: 0,
        lost: 0,
    }
}

#[test]
fn each_round_has_its_line(rt: HostRuntime) -> Result<(), Fail> {
    let same = quiet(Synced::Same);
    let line = b"round 1 same - passed 0 merged 0 dropped 0 lost 0\n".as_slice();
    assert!(rt; round_line(1, &same).as_slice() == line);
    let piece = quiet(Synced::Piece(name(0, 2, 2)?));
    let line =
        b"round 2 piece ltx/0/0000000000000002-0000000000000002.ltx passed 0 merged 0 dropped 0 lost 0\n".as_slice();
    assert!(rt; round_line(2, &piece).as_slice() == line);
    let whole = Round {
        sync: Synced::Whole(name(9, 1, u64::MAX)?),
        passed: true,
        merged: u32::MAX,
        dropped: u64::MAX,
        lost: u64::MAX - 1,
    };
    let front =
        b"round 4294967295 whole ltx/9/0000000000000001-ffffffffffffffff.ltx passed 1 merged 4294967295".as_slice();
    let back = b" dropped 18446744073709551615 lost 18446744073709551614\n".as_slice();
    let line = round_line(u32::MAX, &whole);
    assert!(rt; line.as_slice().strip_prefix(front) == Some(back));
    assert!(rt; line.len() == 149);
    Ok(())
}
