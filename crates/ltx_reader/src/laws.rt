//! The laws of readers and their files.

ghost use Rattle.ltx_reader.specs.Reader.{EndedReadersHaveFiles, FilesHaveTheirPages};

/// A reader that came to the end of a file has read a file of the format, and what it gave are the pages of the
/// file's change. Does nothing: its clauses hold of all readers.
pub fn ended_readers_have_files()
    ensures files { EndedReadersHaveFiles }
    ensures pages { FilesHaveTheirPages }
{}
