//! The real files that stay open.

use crate::open_file::{Access, OpenFile};
use lru::LruCache;
use std::alloc::Global;
use std::num::NonZeroUsize;

/// How many files stay open at most.
const MOST: usize = 48;

/// The files that were used last, by the names that they were opened by.
#[derive(Drop)]
pub(crate) struct OpenFiles {
    /// `None` until the first file is kept, so that `new` takes no memory.
    files: Option<LruCache<String, OpenFile>>,
}

impl OpenFiles {
    /// No file is open at first.
    pub(crate) fn new() -> OpenFiles {
        OpenFiles { files: None }
    }

    /// Takes out the file of this name, with the name, where it is open for this access. One that is open for less
    /// is closed.
    pub(crate) fn take(&mut self, name: &str, access: Access) -> Option<(String, OpenFile)> {
        let (name, file) = self.files.as_mut()?.pop_entry(name)?;
        file.serves(access).then_some((name, file))
    }

    /// Keeps the file open under this name, and closes the one that was used longest ago where there are too
    /// many. Without memory the file is closed.
    pub(crate) fn put(&mut self, alloc: Global, name: String, file: OpenFile) {
        if self.files.is_none() {
            self.files = NonZeroUsize::new(MOST).and_then(|most| LruCache::new(alloc, most).ok());
        }
        if let Some(files) = &mut self.files {
            let _ = files.put(name, file);
        }
    }

    /// Closes the file of this name.
    pub(crate) fn close(&mut self, name: &str) {
        if let Some(files) = &mut self.files {
            files.pop(name);
        }
    }

    /// Closes all of them.
    pub(crate) fn close_all(&mut self) {
        self.files = None;
    }
}
