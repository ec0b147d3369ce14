//! A worker with its pass.
use shared_store::Pass;

/// A worker, and its pass while it has one.
pub type Slot<W, B> = (W, Option<Pass<B>>);
