//! Command lines, with what each answers, prints and leaves, by hand from the rules.

use crate::files::Replica;
use db_page::HeaderFault;
use litestream_core::Why;
use ls_words::{Usage, UsageWhy};

/// A line, and what it does.
pub struct Row {
    pub line: &'static str,
    pub replica: Replica,
    /// The bytes of the pages of the output that is there before; none where it isn't.
    pub there: &'static [u8],
    pub why: Why,
    pub status: u8,
    /// What is printed.
    pub text: &'static str,
    /// The bytes of the pages of the output that is there afterwards.
    pub left: &'static [u8],
}

/// A file of two pages, by words in each order and form.
pub const FORMS: [Row; 4] = [
    Row {
        line: "restore -o D/o -txid 1 R",
        replica: Replica::Whole,
        there: &[],
        why: Why::Done,
        status: 0,
        text: "restored 0000000000000001 pages 2\n",
        left: &[0x11, 0x22],
    },
    Row {
        line: "restore -txid 1 -o o R",
        replica: Replica::Whole,
        there: &[],
        why: Why::Done,
        status: 0,
        text: "restored 0000000000000001 pages 2\n",
        left: &[0x11, 0x22],
    },
    Row {
        line: "restore -txid=0000000000000001 --o=D/o R",
        replica: Replica::Whole,
        there: &[],
        why: Why::Done,
        status: 0,
        text: "restored 0000000000000001 pages 2\n",
        left: &[0x11, 0x22],
    },
    Row {
        line: "restore -if-db-not-exists -if-replica-exists --o /o -- R",
        replica: Replica::Whole,
        there: &[],
        why: Why::Done,
        status: 0,
        text: "restored 0000000000000001 pages 2\n",
        left: &[0x11, 0x22],
    },
];

/// An output that is there.
pub const OUTPUTS: [Row; 4] = [
    Row {
        line: "restore -o D/o -txid 1 R",
        replica: Replica::Whole,
        there: &[0x11, 0x22],
        why: Why::OutputExists(1024),
        status: 1,
        text: "",
        left: &[0x11, 0x22],
    },
    Row {
        line: "restore -o D/o -if-db-not-exists=false R",
        replica: Replica::Whole,
        there: &[0x99],
        why: Why::OutputExists(512),
        status: 1,
        text: "",
        left: &[0x99],
    },
    Row {
        line: "restore -o D/o -txid 1 -if-db-not-exists R",
        replica: Replica::Whole,
        there: &[0x11, 0x22],
        why: Why::SkippedOutput,
        status: 0,
        text: "",
        left: &[0x11, 0x22],
    },
    Row {
        line: "restore -o D/o -if-db-not-exists R",
        replica: Replica::Empty,
        there: &[0x99],
        why: Why::SkippedOutput,
        status: 0,
        text: "",
        left: &[0x99],
    },
];

/// A replica without files.
pub const ABSENT: [Row; 3] = [
    Row {
        line: "restore -o D/o R",
        replica: Replica::Empty,
        there: &[],
        why: Why::NoReplica,
        status: 1,
        text: "",
        left: &[],
    },
    Row {
        line: "restore -o D/o -txid 1 -if-replica-exists=0 R",
        replica: Replica::Empty,
        there: &[],
        why: Why::NoReplica,
        status: 1,
        text: "",
        left: &[],
    },
    Row {
        line: "restore -o D/o -if-replica-exists R",
        replica: Replica::Empty,
        there: &[],
        why: Why::SkippedReplica,
        status: 0,
        text: "",
        left: &[],
    },
];

/// Transactions to which no chain leads.
pub const MISSING: [Row; 3] = [
    Row {
        line: "restore -o D/o -txid 2 R",
        replica: Replica::Whole,
        there: &[],
        why: Why::MissingRange(1),
        status: 1,
        text: "",
        left: &[],
    },
    Row {
        line: "restore -o D/o -txid 5 R",
        replica: Replica::Runs,
        there: &[],
        why: Why::MissingRange(4),
        status: 1,
        text: "",
        left: &[],
    },
    Row {
        line: "restore -o D/o -txid 3 R",
        replica: Replica::Runs,
        there: &[],
        why: Why::MissingRange(0),
        status: 1,
        text: "",
        left: &[],
    },
];

/// Chains of files, and the newest.
pub const CHAINS: [Row; 4] = [
    Row {
        line: "restore -o D/o -txid 6 -if-replica-exists R",
        replica: Replica::Runs,
        there: &[],
        why: Why::Done,
        status: 0,
        text: "restored 0000000000000006 pages 2\n",
        left: &[0x11, 0x55],
    },
    Row {
        line: "restore -o D/o -txid 4 R",
        replica: Replica::Runs,
        there: &[],
        why: Why::Done,
        status: 0,
        text: "restored 0000000000000004 pages 2\n",
        left: &[0x11, 0x22],
    },
    Row {
        line: "restore -o D/o R",
        replica: Replica::Two,
        there: &[],
        why: Why::Done,
        status: 0,
        text: "restored 0000000000000002 pages 2\n",
        left: &[0x11, 0x55],
    },
    Row {
        line: "restore -o D/o R",
        replica: Replica::Runs,
        there: &[],
        why: Why::Done,
        status: 0,
        text: "restored 0000000000000006 pages 2\n",
        left: &[0x11, 0x55],
    },
];

/// A database that grows and shrinks.
pub const GROWTH: [Row; 3] = [
    Row {
        line: "restore -o D/o -txid 1 R",
        replica: Replica::Growing,
        there: &[],
        why: Why::Done,
        status: 0,
        text: "restored 0000000000000001 pages 2\n",
        left: &[0x11, 0x22],
    },
    Row {
        line: "restore -o D/o -txid 2 R",
        replica: Replica::Growing,
        there: &[],
        why: Why::Done,
        status: 0,
        text: "restored 0000000000000002 pages 3\n",
        left: &[0x11, 0x22, 0x33],
    },
    Row {
        line: "restore -o D/o R",
        replica: Replica::Growing,
        there: &[],
        why: Why::Done,
        status: 0,
        text: "restored 0000000000000003 pages 1\n",
        left: &[0x44],
    },
];

/// Moments.
pub const MOMENTS: [Row; 8] = [
    Row {
        line: "restore -o D/o -timestamp 2023-11-14T22:13:20Z R",
        replica: Replica::Two,
        there: &[],
        why: Why::Done,
        status: 0,
        text: "restored 0000000000000002 pages 2\n",
        left: &[0x11, 0x55],
    },
    Row {
        line: "restore -o D/o -timestamp 2023-11-14T23:13:20+01:00 R",
        replica: Replica::Two,
        there: &[],
        why: Why::Done,
        status: 0,
        text: "restored 0000000000000002 pages 2\n",
        left: &[0x11, 0x55],
    },
    Row {
        line: "restore -o D/o -timestamp 2023-11-14T22:13:19.999Z R",
        replica: Replica::Two,
        there: &[],
        why: Why::NoMoment,
        status: 1,
        text: "",
        left: &[],
    },
    Row {
        line: "restore -o D/o -timestamp 1969-12-31T23:59:59.999Z R",
        replica: Replica::Two,
        there: &[],
        why: Why::NoMoment,
        status: 1,
        text: "",
        left: &[],
    },
    Row {
        line: "restore -o D/o -timestamp 1969-12-31T23:59:59.999Z R",
        replica: Replica::Empty,
        there: &[],
        why: Why::NoReplica,
        status: 1,
        text: "",
        left: &[],
    },
    Row {
        line: "restore -o D/o -timestamp 2023-11-14T22:13:20.999Z R",
        replica: Replica::Growing,
        there: &[],
        why: Why::Done,
        status: 0,
        text: "restored 0000000000000001 pages 2\n",
        left: &[0x11, 0x22],
    },
    Row {
        line: "restore -o D/o -timestamp 2023-11-14T22:13:21Z R",
        replica: Replica::Growing,
        there: &[],
        why: Why::Done,
        status: 0,
        text: "restored 0000000000000002 pages 3\n",
        left: &[0x11, 0x22, 0x33],
    },
    Row {
        line: "restore -o D/o -timestamp 9999-12-31T23:59:59Z R",
        replica: Replica::Growing,
        there: &[],
        why: Why::Done,
        status: 0,
        text: "restored 0000000000000003 pages 1\n",
        left: &[0x44],
    },
];

/// Words that are none, a listing, and commands that aren't built.
pub const WORDS: [Row; 6] = [
    Row {
        line: "restore -o",
        replica: Replica::Whole,
        there: &[],
        why: Why::Usage(Usage {
            word: 2,
            why: UsageWhy::NeedsValue,
        }),
        status: 2,
        text: "",
        left: &[],
    },
    Row {
        line: "restor",
        replica: Replica::Whole,
        there: &[],
        why: Why::Usage(Usage {
            word: 0,
            why: UsageWhy::UnknownCommand,
        }),
        status: 2,
        text: "",
        left: &[],
    },
    Row {
        line: "restore -o D/o -txid 0 R",
        replica: Replica::Whole,
        there: &[],
        why: Why::Usage(Usage {
            word: 4,
            why: UsageWhy::BadTxid,
        }),
        status: 2,
        text: "",
        left: &[],
    },
    Row {
        line: "replicate -at-rest -retention 1h d r",
        replica: Replica::Whole,
        there: &[],
        why: Why::Header(HeaderFault::Short(0)),
        status: 1,
        text: "",
        left: &[],
    },
    Row {
        line: "ltx r",
        replica: Replica::Whole,
        there: &[],
        why: Why::Done,
        status: 0,
        text: "level min_txid max_txid size created\n\
9 0000000000000001 0000000000000001 1158 2023-11-14T22:13:20.000Z\n",
        left: &[],
    },
    Row {
        line: "demo",
        replica: Replica::Whole,
        there: &[],
        why: Why::NotBuilt,
        status: 2,
        text: "",
        left: &[],
    },
];
