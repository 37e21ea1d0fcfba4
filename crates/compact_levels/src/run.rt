//! A run of files.

use ls_base::Txid;

/// Files that are merged into one: the level of the merged file, and the first and the last transaction that it
/// holds.
#[derive(Clone, Copy, Debug, PartialEq, Eq)]
pub struct Run {
    pub level: u8,
    pub min: Txid,
    pub max: Txid,
}
