//! LTX files: the bytes of one transaction file, read and written exactly.
//!
//! The format is a profile of this project's own, after superfly/ltx: a header of 100 bytes, page blocks,
//! an end of 6 zero bytes, an index where the header says that there is one, and a trailer of 16 bytes. The
//! index holds the numbers of the pages, so that one page is found without the whole file. The lock page is
//! in no file. `specs/LtxFormat.antt` says which bytes are the file of a header and its pages, and
//! `specs/FirstFault.antt` tests bytes from the left and says what is wrong with them first.
//!
//! In memory, `decode` answers Ok exactly on the bytes of a file, for its header and its pages, and else
//! their first fault; it takes memory for the pages alone, and returns on any bytes. `encode` writes the one
//! file of a header and its pages. `read_ltx_header` looks at the first 100 bytes alone and takes no memory.
//! `one_spelling` is the law that files and values fit one to one, and `faultless_files` the law that bytes
//! without a fault are the files. Page by page, `LtxWriter` and `IndexWriter` write the same bytes.
//!
//! Stands on `ls_base`, on `ls_sums` for the sum of a file, and on `byteorder` for the bytes of a number.
#![tactic(auto)]

mod block;
mod draft;
mod entries;
mod fault;
mod field;
mod file;
mod header;
mod heading;
mod index_writer;
mod place;
mod reading;
mod spelling;
#[cfg(test)]
mod tests;
mod trailer;
mod writer;
#[cfg(test)]
mod writer_tests;
mod writing;
mod writing_header;

pub use fault::{DecodeFault, LtxFault};
pub use file::LtxFile;
pub use header::LtxHeader;
pub use heading::HEADER_BYTES;
pub use index_writer::{IndexTail, IndexWriter};
pub use reading::{decode, read_ltx_header};
pub use spelling::{faultless_files, faultless_headers, one_header, one_spelling};
pub use writer::LtxWriter;
pub use writing::encode;
