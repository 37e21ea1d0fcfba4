//! A line of the sync log.

use crate::place::Place;

/// What the sync log records of one transaction: the place of its state, and its moment in
/// milliseconds since 1970-01-01T00:00:00Z.
#[derive(Clone, Copy, Debug, PartialEq, Eq)]
pub struct Line {
    pub place: Place,
    pub moment: u64,
}
