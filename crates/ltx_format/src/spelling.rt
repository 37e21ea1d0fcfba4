//! The laws of files and their values.

ghost use Rattle.ltx_format.specs.OneSpelling.{OneSpelling, OneValue, OneHeader, FilesAreBytes};
ghost use Rattle.ltx_format.specs.FaultlessFiles.{FaultlessFiles, FilesHaveNoFault};
ghost use Rattle.ltx_format.specs.FaultlessFiles.{FaultlessHeaders, HeadersHaveNoFault};

/// Each header and change has one file, and each file one header and change. What a file holds are bytes.
/// Does nothing: its clauses hold of all files.
pub fn one_spelling()
    ensures same_bytes { OneSpelling }
    ensures same_value { OneValue }
    ensures bytes { FilesAreBytes }
{}

/// Bytes begin with at most one header. Does nothing: its clause holds of all bytes.
pub fn one_header()
    ensures same_header { OneHeader }
{}

/// Bytes have no fault exactly where they are the file of some header and change. Does nothing: its clauses
/// hold of all bytes.
pub fn faultless_files()
    ensures files { FaultlessFiles }
    ensures no_fault { FilesHaveNoFault }
{}

/// The first 100 bytes have no fault exactly where they are some header's. Does nothing: its clauses hold of
/// all bytes.
pub fn faultless_headers()
    ensures headers { FaultlessHeaders }
    ensures no_fault { HeadersHaveNoFault }
{}
