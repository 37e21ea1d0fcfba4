//! An LTX file that is read page by page.

ghost use Rattle.std.specs.Prelude.{◌≡◌, ◌<◌, length};

use file_disk::FileDisk;
use ls_base::Steps;
use ltx_reader::LtxReader;
use std::alloc::Global;
use std::io::{self, ErrorKind};
use std::marker::Brand;
use std::sync::ledger::{Blank, Ledger};

/// Reads the file to its end, and answers the number of its last page.
pub fn read_file(alloc: Global, disk: &mut FileDisk, name: &str) -> io::Result<u32> {
    let Ok(mut reader) = LtxReader::begin(alloc, disk, name) else {
        return Err(ErrorKind::InvalidData.into());
    };
    let mut page = vec![in alloc; 0u8; reader.header().size.get() as usize]?;
    read_pages::<Brand>(disk, &mut reader, page.as_mut_slice(), Blank::new(1))
}

/// Reads what is left to the reader, with its steps counted on the ledger of the blank.
fn read_pages<L: Ledger>(
    disk: &mut FileDisk,
    reader: &mut LtxReader,
    page: &mut [u8],
    blank: Blank,
) -> io::Result<u32>
    requires name { blank.name ≡ L.name }
    requires parts { blank.parts ≡ L.parts }
    requires some { 0 < blank.parts }
    requires sized { length page.old ≡ reader.old.header.size }
{
    let mut steps = Steps::<L>::new(blank);
    let mut last = 0;
    for _ in 0..u64::MAX {
        match reader.next_page(disk, page, &mut steps) {
            Ok(Some(number)) => last = number,
            Ok(None) => return Ok(last),
            Err(_) => return Err(ErrorKind::InvalidData.into()),
        }
    }
    Err(ErrorKind::TimedOut.into())
}
