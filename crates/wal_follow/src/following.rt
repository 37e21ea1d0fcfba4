//! What a follower keeps.

use crate::log_scan::LogScan;
use ls_base::{PageSize, Place};
use snapshot_read::PageMap;

/// The state that `next` found last.
#[derive(Clone, Copy, Debug, PartialEq, Eq)]
pub struct Target {
    pub(crate) size: PageSize,
    pub(crate) place: Place,
    pub(crate) commit: u32,
}

/// What a follower keeps from one call to the next.
#[derive(Debug, Drop)]
pub struct Following {
    /// The place of the newest line.
    pub(crate) place: Option<Place>,
    /// Whether `stored` made it the recorded one.
    pub(crate) recorded: bool,
    /// Whether `passed` was called since.
    pub(crate) passed: bool,
    /// How many pages the state there has, where the follower has learned that.
    pub(crate) pages: Option<u32>,
    /// The page size that the last `next` that answered Ok found.
    pub(crate) size: Option<PageSize>,
    /// The scan of the log in which the follower found its last commit.
    pub(crate) scan: Option<LogScan>,
    /// Where the pages up to a recorded place stand in the log.
    pub(crate) kept: PageMap,
    /// Where those stand that `next` gathered.
    pub(crate) newer: PageMap,
    /// Whether it gathered them from the log's start, and not from the place on.
    pub(crate) fresh: bool,
    /// What it found and `stored` hasn't recorded yet.
    pub(crate) found: Option<Target>,
}
