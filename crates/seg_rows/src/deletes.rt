//! Deletes: the versions that they take, and the lives afterwards.
ghost use Rattle.std.specs.Prelude.{◌≡◌, ◌<◌, ◌+◌, ◌-◌, ◌^◌, cond, length, map, IfOk};
ghost use Rattle.seg_rows.specs.Hulls.{hull_at, hull_of, joined_hull};
ghost use Rattle.seg_rows.specs.Lives.{Covers, versions_of, with_life, with_lives};
ghost use Rattle.seg_rows.specs.Versions.{after_kill, is_taken, taken_at};

use crate::hulls::{join_hulls, point};
use crate::lives::{Life, Lives};
use std::alloc::Global;
use ts_bucket::Hull;
use ts_schema::{NoMemory, Row, Seq, Test, passes};

/// The effect of a delete.
#[derive(Clone, Copy, Debug)]
pub struct DeleteEffect {
    /// The number of rows.
    pub removed: u64,
    /// The hull of their times.
    pub hull: Option<Hull>,
}

impl DeleteEffect {
    /// The same with one more version, if the delete takes it.
    fn and(self, taken: bool, row: &Row) -> DeleteEffect
        requires { self.removed + 1 < 2 ^ 64 }
        ensures removed { result.removed ≡ self.removed + cond taken 1 0 }
        ensures hull { result.hull ≡ joined_hull self.hull (cond taken (hull_at row.now.at) None) }
    {
        if taken {
            DeleteEffect {
                removed: self.removed + 1,
                hull: join_hulls(self.hull, point(row)),
            }
        } else {
            self
        }
    }
}

/// The effect of a delete at a position on these versions.
pub fn taken_by(rows: &[Row], lives: &Lives, tests: &Seq<Test>, pos: u64) -> DeleteEffect
    requires covers { Covers (length rows.now) lives.now }
    ensures removed { result.removed ≡ length (taken_at pos tests.now (versions_of rows.now lives.now)) }
    ensures hull { result.hull ≡ hull_of (taken_at pos tests.now (versions_of rows.now lives.now)) }
{
    let mut taken = DeleteEffect {
        removed: 0,
        hull: None,
    };
    for (i, row) in rows.iter().enumerate() {
        let takes = takes_version(row, lives.at(i, rows.len()), tests, pos);
        taken = taken.and(takes, row);
    }
    taken
}

/// Whether a delete at a position takes a version.
fn takes_version(row: &Row, life: Life, tests: &Seq<Test>, pos: u64) -> bool
    ensures { result ≡ is_taken pos tests.now (with_life row.now life) }
{
    life.is_visible(pos) && passes(row, tests)
}

/// The lives of these versions after a delete at a position.
pub fn lives_after(
    alloc: Global,
    rows: &[Row],
    lives: &Lives,
    tests: &Seq<Test>,
    pos: u64,
) -> Result<Seq<Life>, NoMemory>
    requires covers { Covers (length rows.now) lives.now }
    ensures count { IfOk result (λ after. length after ≡ length rows.now) }
    ensures after { IfOk result (λ after.
        with_lives rows.now after ≡ map (after_kill pos tests.now) (versions_of rows.now lives.now)) }
{
    let mut after = Vec::with_capacity(alloc, rows.len())?;
    for (i, row) in rows.iter().enumerate() {
        after.push(life_after(row, lives.at(i, rows.len()), tests, pos))?;
    }
    Ok(Seq::of(after))
}

/// The life of a version after a delete at a position.
fn life_after(row: &Row, life: Life, tests: &Seq<Test>, pos: u64) -> Life
    ensures { with_life row.now result ≡ after_kill pos tests.now (with_life row.now life) }
{
    if takes_version(row, life, tests, pos) {
        Life {
            born: life.born,
            died: Some(pos),
        }
    } else {
        life
    }
}
