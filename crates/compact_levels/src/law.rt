//! What follows of merges, whatever the files are.

ghost use Rattle.compact_levels.specs.MergeLaws.{FaithfulRunsAreSound, FaithfulRunsAreWhole, MergesKeepFaith};

/// The merge of files that tell the truth about a database does so too: the merge of a run that begins later than with
/// transaction 1 leads from each state before it to the state behind it, and the merge of one that begins with that
/// leads there from nothing. No file of such a run is damaged, and no page is missing in it. Does nothing: its clauses
/// hold of all files.
pub fn merges_keep_faith()
    ensures faith { MergesKeepFaith }
    ensures sound { FaithfulRunsAreSound }
    ensures whole { FaithfulRunsAreWhole }
{}
