//! What a command answers.

ghost use Rattle.std.specs.Prelude.{◌≡◌};
ghost use Rattle.ls_answers.specs.Outcome.{status_of};

use db_page::HeaderFault;
use ls_words::Usage;
use replica_store::{Damage, FileName};

/// How the log of a database shows that someone didn't keep to the gate.
#[derive(Clone, Copy, Debug, PartialEq, Eq)]
pub enum Broken {
    /// The header of the log has other salts than the found place, or isn't valid.
    Salts {
        /// The salts of the found place.
        was: (u32, u32),
        /// Those of the header, if it is valid.
        now: Option<(u32, u32)>,
    },
    /// The log ended before the found commit did.
    Short {
        /// The offset of the byte that didn't come, in bytes from the start of the log.
        at: u64,
    },
}

/// Why a command ended.
#[derive(Clone, Copy, Debug, PartialEq, Eq)]
pub enum Why {
    /// The command did its work.
    Done,
    /// The output is there, and the words say that it is left as it is.
    SkippedOutput,
    /// The replica has no file, and the words say that this is no fault.
    SkippedReplica,
    /// The command isn't built yet.
    NotBuilt,
    /// The words aren't of the grammar.
    Usage(Usage),
    /// No database is at the path.
    NoDatabase,
    /// The database file has no header of a database in WAL mode; the first test that its header fails.
    Header(HeaderFault),
    /// The log has a commit, and another page size than the database file.
    SizesDiffer {
        /// The page size of the database file in bytes.
        db: u32,
        /// That of the log.
        wal: u32,
    },
    /// The log has so many bytes, more than it may have.
    WalTooLong(u64),
    /// The database has so many bytes, more than it may have.
    TooLarge(u64),
    /// Someone didn't keep to the gate.
    GateBroken(Broken),
    /// The replica has no file.
    NoReplica,
    /// No chain of files leads to the asked transaction; the greatest transaction before it to which one
    /// leads, 0 where there is none.
    MissingRange(u64),
    /// No transaction is retained at or before the asked moment.
    NoMoment,
    /// The first file that is damaged of those that the command reads, and what is wrong with it.
    Damaged(FileName, Damage),
    /// The first file that doesn't fit what those before it make, and the first page that is missing there.
    PageMissing(FileName, u32),
    /// The output is there already, with this many bytes.
    OutputExists(u64),
    /// The newest transaction has the greatest number that there is, and another one is to be stored.
    TxidSpent,
    /// The live database failed.
    LiveFault,
    /// The replica's disk failed.
    StoreFault,
    /// The output's disk failed.
    TargetFault,
    /// The output stream failed.
    SinkFault,
    /// There was no memory.
    Memory,
}

impl Why {
    /// The exit status: 0 where the command did its work or was to do none, 1 where the inputs refuse it, 2
    /// for the words, 3 for a fault of the outside, 4 for want of memory.
    pub fn status(&self) -> u8
        ensures { result ≡ status_of self.now }
    {
        match self {
            Why::Done | Why::SkippedOutput | Why::SkippedReplica => 0,
            Why::NoDatabase | Why::Header(_) | Why::SizesDiffer { .. } => 1,
            Why::WalTooLong(_) | Why::TooLarge(_) | Why::GateBroken(_) => 1,
            Why::NoReplica | Why::MissingRange(_) | Why::NoMoment => 1,
            Why::Damaged(_, _) | Why::PageMissing(_, _) | Why::OutputExists(_) => 1,
            Why::TxidSpent => 1,
            Why::NotBuilt | Why::Usage(_) => 2,
            Why::LiveFault | Why::StoreFault => 3,
            Why::TargetFault | Why::SinkFault => 3,
            Why::Memory => 4,
        }
    }
}

/// The end of a command: its cause, and the exit status that the cause has.
#[derive(Clone, Copy, Debug, PartialEq, Eq)]
pub struct Outcome {
    pub status: u8,
    pub why: Why,
}

impl Outcome {
    /// The outcome of a command that ended so.
    pub fn of(why: Why) -> Outcome
        ensures cause { result.why ≡ why }
        ensures status { result.status ≡ status_of why }
    {
        Outcome {
            status: why.status(),
            why,
        }
    }
}
