//! An LTX file as a value.

use crate::header::LtxHeader;
use ls_base::ChangePages;

/// A header, and the pages of the change by their numbers.
#[derive(Debug, Drop)]
pub struct LtxFile {
    pub header: LtxHeader,
    pub pages: ChangePages,
}
