//! A group of rows, with its bucket, its keys and its partial aggregates.
ghost use Rattle.std.specs.Prelude.{◌≡◌, IfOk};
ghost use Rattle.partial_agg.specs.Groups.{group_cmp};

use crate::keys::Keys;
use crate::partials::Partial;
use std::cmp::Ordering;
use ts_schema::{NoMemory, SharedSlice, values_order};

/// The rows of one bucket with the same keys, aggregated.
#[derive(Drop, Debug, Clone, PartialEq, Eq)]
pub struct Group {
    /// The start of the bucket.
    pub start: i64,
    /// The values of the columns that the rows are grouped by; NULL is `None`.
    pub keys: Keys,
    /// One partial aggregate for each requested aggregate. Groups may share a block of them.
    pub parts: SharedSlice<Partial>,
}

impl Group {
    /// A copy of the group. Its partial aggregates take no memory.
    pub fn copy(&self) -> Result<Group, NoMemory>
        ensures same { IfOk result (λ copy. copy ≡ self.now) }
    {
        Ok(Group {
            start: self.start,
            keys: self.keys.copy()?,
            parts: self.parts.copy()?,
        })
    }
}

/// Groups by bucket, and then by their keys from left to right, where NULL is greater than every
/// number.
pub fn group_order(a: &Group, b: &Group) -> Ordering
    ensures order { result ≡ group_cmp a.now b.now }
{
    a.start
        .cmp(&b.start)
        .then(values_order(a.keys.items(), b.keys.items()))
}
