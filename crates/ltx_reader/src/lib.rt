//! LTX files on a disk, read page by page.
//!
//! `LtxReader` goes through the file of a name from its header to its trailer. It holds no page: the caller
//! hands in a buffer of the page size. `number` tells the number of the next page, and `next_page` gives the
//! page. `specs/Reader.antt` says which pages are left to a reader, and `specs/ReaderGiven.antt` how many bytes
//! it takes from its disk.
//!
//! `read_index` tells the numbers of a file's pages by its index alone, and `specs/ReaderIndex.antt` what is wrong
//! with an index first. It reads the last bytes of the file, no page among them, and tests no sum.
//!
//! To the layer above: the pages come in the order of the file, each with its number, and the end comes only
//! behind the last page of a file of the format. Else the reader tells the first fault of the file, the same
//! one that `decode` of `ltx_format` tells of its bytes, and tells it from then on. A fault of the disk comes
//! only where the disk's count of faults rose; the call may then be made again. Each byte is read once, but
//! for the numbers of the blocks of a file with an index. Only `begin`, for the name, and `read_index`, for the
//! numbers, take memory. Of a file of the format `read_index` answers the numbers of its change.
//! `ended_readers_have_files` is the law that a reader at its end has read a file of the format, and has given
//! the pages of the file's change.
//!
//! Stands on `ltx_format` for the format and its faults, on `crash_disk` for the disk, on `ls_sums` for the
//! running sum of a file, and on `ls_base` for page sizes and the count of steps.
#![tactic(auto)]

mod block_front;
mod field;
mod file_end;
mod filling;
mod index;
mod laws;
mod next_block;
mod page_numbers;
mod progress;
mod read_fault;
mod reader;
#[cfg(test)]
mod reader_tests;
#[cfg(test)]
mod test_files;

pub use index::read_index;
pub use laws::ended_readers_have_files;
pub use progress::Progress;
pub use read_fault::ReadFault;
pub use reader::LtxReader;
