//! What a lock is created with, which its rule reads.
use std::snapshot::Snapshot;

/// What a lock is created with: the number of its shares, and the value as it was then.
#[derive(Drop)]
pub struct Opening<V> {
    pub shares: u32,
    pub value: Snapshot<V>,
}
