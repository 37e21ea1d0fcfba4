//! The laws of the valid prefix, of logs that grow or are cut, and of the view.

ghost use Rattle.wal_frames.specs.PrefixLaws.{ValidIsLongest, MarksAreCommits, MarksRise};
ghost use Rattle.wal_frames.specs.LogLaws as log;
ghost use Rattle.wal_frames.specs.ViewLaws as view;

/// The valid prefix is the longest list of frames at the front of all in which each is valid. The marks are
/// those of its frames that commit, and their ends rise. Does nothing: its clauses hold of all frames and logs.
pub fn prefix_laws()
    ensures longest { ValidIsLongest }
    ensures marks { MarksAreCommits }
    ensures rise { MarksRise }
{}

/// What is kept where a log grows, is cut, or has the same front as another. A mark is one of each log that has
/// the same bytes up to it, the last mark is never earlier in a log that grew, and the committed part of a log
/// is its own committed part. Does nothing: its clauses hold of all logs.
pub fn log_laws()
    ensures grown { log.GrowingKeepsMarks }
    ensures last { log.LastIsNeverEarlier }
    ensures cut { log.CutKeepsMarks }
    ensures shared { log.MarkByItsBytes }
    ensures within { log.MarksEndWithin }
    ensures greatest { log.LastIsGreatest }
    ensures one_an_end { log.OneMarkAnEnd }
    ensures committed_marks { log.CommittedHasTheMarks }
    ensures committed { log.CommittedIsItsOwn }
    ensures frames { log.FramesStand }
{}

/// The view at a mark is a state with as many pages as the mark says, it depends on the frames up to the mark
/// alone, and these are the first pieces of the log behind its header. The view at rest is the database file,
/// padded with zeros to whole pages. Does nothing: its clauses hold of all files and logs.
pub fn view_laws()
    ensures at_mark { view.ViewAtMark }
    ensures front { view.ViewByTheFront }
    ensures frames { view.FramesToMark }
    ensures at_rest { view.ViewAtRest }
{}
