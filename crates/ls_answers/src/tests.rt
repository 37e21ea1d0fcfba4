//! Each refusal with its line.

use super::*;
use crash_disk::{MemOut, Out};
use db_page::HeaderFault;
use ls_base::Txid;
use ls_words::{Usage, UsageWhy, Words};
use ltx_format::LtxFault;
use replica_store::{Damage, FileName};
use std::alloc::Global;
use std::process::Abort;
use std::test::*;

const PLAIN: [(Why, &str); 23] = [
    (Why::Done, ""),
    (Why::SkippedOutput, ""),
    (Why::SkippedReplica, ""),
    (Why::NotBuilt, "litestream: not built yet\n"),
    (Why::NoDatabase, "litestream: no database\n"),
    (
        Why::Header(HeaderFault::Short(99)),
        "litestream: database header: 99 bytes\n",
    ),
    (
        Why::Header(HeaderFault::NotDatabase),
        "litestream: database header: not a database\n",
    ),
    (
        Why::Header(HeaderFault::BadPageSize(65_535)),
        "litestream: database header: page size field 65535\n",
    ),
    (
        Why::Header(HeaderFault::NotWalMode {
            write: 1,
            read: 255,
        }),
        "litestream: database header: not in WAL mode (1, 255)\n",
    ),
    (
        Why::SizesDiffer {
            db: 512,
            wal: 4_294_967_295,
        },
        "litestream: page sizes differ: database 512, WAL 4294967295\n",
    ),
    (
        Why::WalTooLong(4_294_967_297),
        "litestream: WAL too long: 4294967297 bytes\n",
    ),
    (
        Why::TooLarge(18_446_744_073_709_551_615),
        "litestream: database too large: 18446744073709551615 bytes\n",
    ),
    (
        Why::GateBroken(Broken::Short {
            at: 18_446_744_073_709_551_615,
        }),
        "litestream: gate broken: WAL ends at 18446744073709551615\n",
    ),
    (Why::NoReplica, "litestream: no replica\n"),
    (
        Why::MissingRange(0),
        "litestream: missing range after 0000000000000000\n",
    ),
    (
        Why::MissingRange(48879),
        "litestream: missing range after 000000000000beef\n",
    ),
    (
        Why::NoMoment,
        "litestream: nothing kept at or before that moment\n",
    ),
    (
        Why::OutputExists(18_446_744_073_709_551_615),
        "litestream: output exists: 18446744073709551615 bytes\n",
    ),
    (Why::TxidSpent, "litestream: no TXID left\n"),
    (Why::LiveFault, "litestream: database fault\n"),
    (Why::StoreFault, "litestream: replica fault\n"),
    (Why::TargetFault, "litestream: output file fault\n"),
    (Why::SinkFault, "litestream: output fault\n"),
];

/// Each kind of damage with its text.
const DAMAGES: [(Damage, &str); 14] = [
    (Damage::File(LtxFault::Short), "short"),
    (Damage::File(LtxFault::BadMagic), "bad magic"),
    (Damage::File(LtxFault::Compressed), "compressed"),
    (Damage::File(LtxFault::BadFlags), "bad flags"),
    (Damage::File(LtxFault::BadPageSize), "bad page size"),
    (Damage::File(LtxFault::BadCommit), "bad commit"),
    (Damage::File(LtxFault::BadRange), "bad range"),
    (Damage::File(LtxFault::BadReserved), "bad reserved field"),
    (
        Damage::File(LtxFault::BadOrder(4_294_967_295)),
        "bad page order at 4294967295",
    ),
    (
        Damage::File(LtxFault::BadSum { kept: 1, found: 2 }),
        "bad checksum",
    ),
    (Damage::File(LtxFault::Extra), "extra bytes"),
    (
        Damage::File(LtxFault::BadIndex(4_294_967_295)),
        "bad index at 4294967295",
    ),
    (Damage::NameDiffers, "name differs"),
    (Damage::SizeDiffers, "page size differs"),
];

/// Each fault of words with its text.
const USAGES: [(UsageWhy, &str); 16] = [
    (UsageWhy::NoCommand, "no command"),
    (UsageWhy::UnknownCommand, "unknown command"),
    (UsageWhy::BadSyntax, "bad flag syntax"),
    (UsageWhy::UnknownFlag, "unknown flag"),
    (UsageWhy::NeedsValue, "flag needs a value"),
    (UsageWhy::BadTruth, "bad truth value"),
    (UsageWhy::BadNumber, "bad number"),
    (UsageWhy::BadTxid, "bad txid"),
    (UsageWhy::BadMoment, "bad timestamp"),
    (UsageWhy::BadDuration, "bad duration"),
    (UsageWhy::BadPath, "bad path"),
    (UsageWhy::RemoteStore, "remote store"),
    (UsageWhy::MissingWord, "missing word"),
    (UsageWhy::ExtraWord, "extra word"),
    (UsageWhy::NeedsOutput, "-o is needed"),
    (UsageWhy::BothGiven, "-txid and -timestamp"),
];

/// What is said of the answer to the one word `restor`, where no call fails.
fn said(alloc: Global, why: Why) -> Result<MemOut, Fail> {
    let mut words = Words::new(alloc);
    words.push("restor")?;
    let mut err = MemOut::new(alloc);
    say(&mut err, &words, &why);
    Ok(err)
}

fn name() -> Result<FileName, Fail> {
    let first = Txid::new(1).ok_or("a first transaction")?;
    let last = Txid::new(171).ok_or("a last transaction")?;
    Ok(FileName::new(9, first, last).ok_or("a name")?)
}

/// Whether the text is the front, the middle and the back.
fn is_made_of(text: &[u8], front: &str, middle: &str, back: &str) -> bool {
    let Some(rest) = text.strip_prefix(front.as_bytes()) else {
        return false;
    };
    let Some(rest) = rest.strip_prefix(middle.as_bytes()) else {
        return false;
    };
    rest == back.as_bytes()
}

fn check_plain(rt: &impl Abort, alloc: Global) -> Result<(), Fail> {
    for (why, line) in PLAIN.iter() {
        assert!(rt; said(alloc, *why)?.bytes() == line.as_bytes(), "{line}");
    }
    let salts = Broken::Salts {
        was: (1, 2),
        now: None,
    };
    let broken = said(alloc, Why::GateBroken(salts))?;
    let text = b"litestream: gate broken: WAL salts changed\n".as_slice();
    assert!(rt; broken.bytes() == text);
    let memory = said(alloc, Why::Memory)?;
    assert!(rt; memory.bytes() == b"litestream: out of memory\n".as_slice());
    Ok(())
}

fn check_files(rt: &impl Abort, alloc: Global) -> Result<(), Fail> {
    let front = "litestream: damaged ltx/9/0000000000000001-00000000000000ab.ltx: ";
    for (damage, text) in DAMAGES.iter() {
        let err = said(alloc, Why::Damaged(name()?, *damage))?;
        assert!(rt; is_made_of(err.bytes(), front, text, "\n"), "{text}");
    }
    let err = said(alloc, Why::PageMissing(name()?, 4_294_967_295))?;
    let front = "litestream: page 4294967295 missing in ";
    let file = "ltx/9/0000000000000001-00000000000000ab.ltx";
    assert!(rt; is_made_of(err.bytes(), front, file, "\n"));
    Ok(())
}

fn check_usages(rt: &impl Abort, alloc: Global) -> Result<(), Fail> {
    for (why, text) in USAGES.iter() {
        let here = said(alloc, Why::Usage(Usage { word: 0, why: *why }))?;
        assert!(rt;
            is_made_of(here.bytes(), "litestream: usage: ", text, ": restor\n"),
            "{text}"
        );
        let behind = said(alloc, Why::Usage(Usage { word: 1, why: *why }))?;
        assert!(rt;
            is_made_of(behind.bytes(), "litestream: usage: ", text, ": \n"),
            "{text}"
        );
    }
    Ok(())
}

#[test]
fn each_refusal_has_its_line(rt: HostRuntime) -> Result<(), Fail> {
    check_plain(&rt, rt.alloc())?;
    check_files(&rt, rt.alloc())?;
    check_usages(&rt, rt.alloc())
}

/// A bad word is told in three pieces: what stands there where one of them fails.
const FRONTS: [(u64, &str); 4] = [
    (1, ""),
    (2, "litestream: usage: unknown command: "),
    (3, "litestream: usage: unknown command: restor"),
    (4, "litestream: usage: unknown command: restor\n"),
];

#[test]
fn a_failing_output_keeps_a_front(rt: HostRuntime) -> Result<(), Fail> {
    let mut words = Words::new(rt.alloc());
    words.push("restor")?;
    let why = UsageWhy::UnknownCommand;
    for (call, front) in FRONTS.iter() {
        let mut err = MemOut::new(rt.alloc());
        err.fail_at(*call)?;
        say(&mut err, &words, &Why::Usage(Usage { word: 0, why }));
        assert!(rt; err.bytes() == front.as_bytes(), "call {call}");
        assert!(rt; err.faults() == u64::from(*call < 4), "call {call}");
    }
    Ok(())
}
