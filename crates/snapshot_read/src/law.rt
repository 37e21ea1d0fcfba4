//! The laws of pages read by a map.

ghost use Rattle.snapshot_read.specs.ReadLaws.{MappedPagesAreTheView, MappedPagesLieWithin, RestIsTheView};

/// By the offsets of the frames up to a mark each page is the view's there, and lies in the log. The place
/// of as many pages as a database file has is that of its view. Does nothing: its clauses hold of all logs
/// and files.
pub fn read_laws()
    ensures view { MappedPagesAreTheView }
    ensures within { MappedPagesLieWithin }
    ensures rest { RestIsTheView }
{}
