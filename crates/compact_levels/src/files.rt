//! The files of a run.

use ls_base::Txid;
use replica_store::FileName;

/// The first of them, and the transaction that the last ends with.
#[derive(Clone, Copy)]
pub struct Files {
    pub first: FileName,
    pub end: Txid,
}
