//! Groups whose partial aggregates are in blocks.

use partial_agg::Keys;

/// The place at which the partial aggregates of a group begin.
#[derive(Drop, Clone, Copy)]
pub(crate) struct PartsPlace {
    /// The number of the block.
    pub(crate) block: u32,
    /// The place in the block.
    pub(crate) from: u32,
}

/// A group whose partial aggregates are in a block.
#[derive(Drop)]
pub(crate) struct Head {
    pub(crate) start: i64,
    pub(crate) keys: Keys,
    pub(crate) place: PartsPlace,
}
