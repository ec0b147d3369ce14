//! The value during a turn.

/// The value, while one pass has the turn. It has no `Drop`: the caller that takes it must give it back.
pub struct Held<V> {
    /// The value. Its holder may change it, as long as its base stays and its events only grow.
    pub value: V,
    pub(crate) ticket: u64,
}
