//! Carrying out a line of words.

use crash_disk::{MemDisk, MemOut};
use litestream_core::{Outcome, litestream};
use live_gate::StillLive;
use ls_base::Memory;
use ls_words::Words;
use std::alloc::Global;

/// 2023-11-14T22:13:20Z in ms.
const MOMENT: u64 = 1_700_000_000_000;

/// The words of a line with one space between each two.
fn words_of(alloc: Global, line: &str) -> Result<Words, Memory> {
    let mut words = Words::new(alloc);
    for word in line.split(' ') {
        if words.len() >= 100 {
            break;
        }
        words.push(word)?;
    }
    Ok(words)
}

/// What the command of the line ends with at 2023-11-14T22:13:20Z, over these disks and these outputs, beside a
/// database file of these bytes that has no log.
pub fn carried_out_beside(
    alloc: Global,
    database: &[u8],
    line: &str,
    store: &mut MemDisk,
    target: &mut MemDisk,
    out: &mut MemOut,
    err: &mut MemOut,
) -> Result<Outcome, Memory> {
    let words = words_of(alloc, line)?;
    let mut live = StillLive::new(alloc, database, &[])?;
    Ok(litestream(alloc, &words, MOMENT, &mut live, store, target, out, err))
}

/// The same where the database file is empty.
pub fn carried_out_telling(
    alloc: Global,
    line: &str,
    store: &mut MemDisk,
    target: &mut MemDisk,
    out: &mut MemOut,
    err: &mut MemOut,
) -> Result<Outcome, Memory> {
    carried_out_beside(alloc, &[], line, store, target, out, err)
}

/// The same where nobody looks at what is said.
pub fn carried_out(
    alloc: Global,
    line: &str,
    store: &mut MemDisk,
    target: &mut MemDisk,
    out: &mut MemOut,
) -> Result<Outcome, Memory> {
    let mut err = MemOut::new(alloc);
    carried_out_telling(alloc, line, store, target, out, &mut err)
}
