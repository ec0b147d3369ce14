//! Entries of a log.

use ts_bucket::Hull;

/// The hull of a commit, and the position of that commit.
#[derive(Clone, Copy, Debug, PartialEq, Eq)]
pub struct Entry {
    pub hull: Hull,
    pub pos: u64,
}
