//! Positions of versions: where each was inserted and where it was deleted.
ghost use Rattle.std.specs.Prelude.{◌≡◌, ◌<◌, ℕ, true, slice_index_or};
ghost use Rattle.seg_rows.specs.Lives.{AreUnharmed, Covers, is_alive_at, lives_of};

use crate::deaths::has_died;
use ts_schema::Seq;

/// The positions of one version.
#[derive(Clone, Copy, Debug)]
pub struct Life {
    pub born: u64,
    pub died: Option<u64>,
}

/// The positions of a segment's versions.
#[derive(Drop, Debug)]
pub enum Lives {
    /// All were inserted together, and none is deleted.
    Together(u64),
    /// The position at which each was inserted, and none is deleted.
    Born(Seq<u64>),
    /// One life for each.
    Each(Seq<Life>),
}

impl Life {
    /// Whether the version is visible at a position: it was inserted at or before it, and not deleted at or
    /// before it.
    pub fn is_visible(&self, pos: u64) -> bool
        ensures visible { result ≡ is_alive_at pos self.now }
    {
        self.born <= pos && !has_died(self.died, pos)
    }
}

impl Lives {
    /// The life of version `i` of `count`.
    pub fn at(&self, i: usize, count: usize) -> Life
        requires covers { Covers count self.now }
        requires within { i < count }
        ensures life { result ≡ slice_index_or (lives_of count self.now) i result }
    {
        match self {
            Lives::Together(born) => Life {
                born: *born,
                died: None,
            },
            Lives::Born(births) => Life {
                born: *births.get(i),
                died: None,
            },
            Lives::Each(lives) => *lives.get(i),
        }
    }

    /// Whether it is certain that none is deleted.
    pub fn are_unharmed(&self) -> bool
        ensures unharmed { result ≡ true → (n : ℕ) → AreUnharmed (lives_of n self.now) }
    {
        match self {
            Lives::Together(_) => true,
            Lives::Born(_) => true,
            Lives::Each(_) => false,
        }
    }
}
