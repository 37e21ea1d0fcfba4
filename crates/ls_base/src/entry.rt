//! An entry of the history of a database.

use crate::page_size::PageSize;
use crate::pages::Pages;
use crate::place::Place;

/// A state that a database had, and where it stood: the page size in bytes, the place, and the pages in
/// their order, page 1 first.
#[derive(Debug, Drop)]
pub struct Entry {
    pub size: PageSize,
    pub place: Place,
    pub pages: Pages,
}
