//! A merge of two pieces, and what stands behind it.

use crate::content::{MERGED, disk_with_pieces, is_merged};
use crate::merging::merge_pieces;
use crash_disk::Disk;
use replica_store::read_name;
use std::process::Abort;
use std::test::Fail;

#[test]
fn the_merge_has_the_page_of_the_last_piece_and_an_index(rt: HostRuntime) -> Result<(), Fail> {
    let mut store = disk_with_pieces(rt.alloc())?;
    assert!(rt; !is_merged(rt.alloc(), &mut store)?);
    let name = merge_pieces(rt.alloc(), &mut store)?.ok();
    assert_eq!(rt; name, read_name(MERGED.path));
    assert!(rt; is_merged(rt.alloc(), &mut store)?);
    assert_eq!(rt; store.size(MERGED.path)?, Some(MERGED.size));
    Ok(())
}
