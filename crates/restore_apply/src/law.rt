//! What the files of a plan make, whatever the files are.

ghost use Rattle.restore_apply.specs.RestoreLaws.{FaithfulChainsMakeRecorded, OneState, ReadFilesAreSound};
ghost use Rattle.restore_apply.specs.RestoreLaws.{MadeStatesAreWhole, MissingPagesAreStored};

/// Where a replica's files tell the truth, a chain of which only the first file begins with the first transaction
/// makes the recorded state. Does nothing: its clause holds of all files.
pub fn faithful_chains_make_recorded_states()
    ensures { FaithfulChainsMakeRecorded }
{}

/// A plan makes at most one state. Where it makes one, none of its files is damaged and no page is missing. Does
/// nothing: its clauses hold of all files.
pub fn plans_make_one_state()
    ensures one { OneState }
    ensures sound { ReadFilesAreSound }
    ensures whole { MadeStatesAreWhole }
{}

/// The page that is told as missing is never the lock page, which no file has. Does nothing: its clause holds of
/// all files.
pub fn missing_pages_are_stored()
    ensures { MissingPagesAreStored }
{}
