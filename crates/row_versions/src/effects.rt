//! The effect of operations on a table.
ghost use Rattle.std.specs.Prelude.{◌≡◌, ◌+◌, length, None, IfOk};
ghost use Rattle.ts_schema.specs.declared.rows.Row.{Row};
ghost use Rattle.seg_rows.specs.Hulls.{hull_of, joined_hull};

use seg_rows::{join_hulls, row_hull};
use ts_bucket::Hull;
use ts_schema::{NoMemory, Row};

/// The effect of operations on a table: the numbers of rows that they inserted and removed, and the hull of the
/// times of all these rows.
#[derive(Clone, Copy, Debug)]
pub struct Effect {
    pub inserted: u64,
    pub removed: u64,
    pub hull: Option<Hull>,
}

impl Effect {
    ghost use Rattle.std.specs.Prelude.{◌≡◌, ◌+◌, length, None, IfOk};
    ghost use Rattle.seg_rows.specs.Hulls.{hull_of, joined_hull};

    /// The effect of no operations.
    pub fn none() -> Effect
        ensures inserted { result.inserted ≡ 0 }
        ensures removed { result.removed ≡ 0 }
        ensures hull { result.hull ≡ None }
    {
        Effect {
            inserted: 0,
            removed: 0,
            hull: None,
        }
    }

    /// The same after these rows were inserted. Fails as out of memory if the count doesn't fit 64 bits: that
    /// many rows don't fit into memory either.
    pub fn and_inserted(self, rows: &[Row]) -> Result<Effect, NoMemory>
        ensures inserted { IfOk result (λ e. e.inserted ≡ self.inserted + length rows.now) }
        ensures removed { IfOk result (λ e. e.removed ≡ self.removed) }
        ensures hull { IfOk result (λ e. e.hull ≡ joined_hull self.hull (hull_of rows.now)) }
    {
        let Some(inserted) = self.inserted.checked_add(rows.len() as u64) else {
            return Err(NoMemory);
        };
        Ok(Effect {
            inserted,
            removed: self.removed,
            hull: join_hulls(self.hull, row_hull(rows)),
        })
    }

    /// The same after this many rows with this hull were removed.
    pub fn and_removed(self, removed: u64, hull: Option<Hull>) -> Result<Effect, NoMemory>
        ensures inserted { IfOk result (λ e. e.inserted ≡ self.inserted) }
        ensures removed { IfOk result (λ e. e.removed ≡ self.removed + removed) }
        ensures hull { IfOk result (λ e. e.hull ≡ joined_hull self.hull hull) }
    {
        let Some(removed) = self.removed.checked_add(removed) else {
            return Err(NoMemory);
        };
        Ok(Effect {
            inserted: self.inserted,
            removed,
            hull: join_hulls(self.hull, hull),
        })
    }
}
