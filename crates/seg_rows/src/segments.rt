//! Segments.
ghost use Rattle.std.specs.Prelude.{◌≡◌, ◌+◌, ◌-◌, ◌<◌, ◌++◌, length, map, IfOk, OnOk, OnErr};
ghost use Rattle.seg_rows.specs.Hulls.{hull_of};
ghost use Rattle.seg_rows.specs.Versions.{after_kill, died_out, later_time, latest_at, latest_of, newborn, rows_at, rows_of, taken_at, GainsFirst};
ghost use Rattle.ts_schema.specs.Counts.{raised_by, RaisedUpTo};

use crate::deaths::{both_died, last_death, newborn_death};
use crate::deletes::{lives_after, taken_by};
use crate::hulls::{greatest_time, join_hulls, row_hull};
use crate::joins::{joined_lives, joined_rows};
use crate::lives::Lives;
use crate::scans::{is_no_later, last_time, later, scan_span};
use std::alloc::Global;
use std::marker::Model;
use std::sync::Arc;
use ts_bucket::{Hull, Span};
use ts_schema::{NoMemory, Row, Seq, SharedSlice, Steps, Test};

/// Rows that never change, with their positions. Contracts see it as the list of its versions.
///
/// Segments share rows and positions: a copy takes no memory except one more count of sharers. The rows are a
/// part of a list that others may share too.
#[derive(Drop)]
pub struct Segment {
    alloc: Global,
    rows: SharedSlice<Row>,
    lives: Arc<Lives>,
    /// The hull of the times of all rows, visible or not.
    hull: Option<Hull>,
    /// The position of the last delete, if all versions are deleted.
    dead: Option<u64>,
}

impl Model for Segment {
    ghost use Rattle.std.specs.Prelude.{List, length};
    ghost use Rattle.seg_rows.specs.Versions.{Version};

    ghost Value = { List Version };

    ghost use Rattle.seg_rows.specs.Lives.{IsSealed, versions_of};

    ghost view = { λ s. versions_of s.rows s.lives.value };

    ghost invariant = { λ s. IsSealed s.rows s.lives.value s.hull s.dead };
}

/// A segment after a delete.
#[derive(Drop)]
pub struct Killed {
    /// The segment after it.
    pub segment: Segment,
    /// The number of versions deleted.
    pub removed: u64,
    /// The hull of their times.
    pub hull: Option<Hull>,
}

impl Segment {
    /// The segment of rows inserted at position `born`. It shares the rows with the list that they are part
    /// of.
    pub fn seal(alloc: Global, rows: SharedSlice<Row>, born: u64) -> Result<Segment, NoMemory>
        ensures born { IfOk result (λ s. s ≡ map (newborn born) rows) }
    {
        let hull = row_hull(rows.items());
        let dead = newborn_death(rows.len());
        Ok(Segment {
            alloc,
            rows,
            lives: Arc::new(alloc, Lives::Together(born))?,
            hull,
            dead,
        })
    }

    /// The number of versions.
    pub fn count(&self) -> u64
        ensures count { result ≡ length self.now }
    {
        self.rows.len() as u64
    }

    /// A copy of the segment.
    pub fn copy(&self) -> Result<Segment, NoMemory>
        ensures same { IfOk result (λ copy. copy ≡ self.now) }
    {
        Ok(Segment {
            alloc: self.alloc,
            rows: self.rows.copy()?,
            lives: Arc::try_clone(&self.lives)?,
            hull: self.hull,
            dead: self.dead,
        })
    }

    /// The versions of this segment and then those of another.
    pub fn join(&self, other: &Segment) -> Result<Segment, NoMemory>
        ensures joined { IfOk result (λ both. both ≡ self.now ++ other.now) }
    {
        let rows = joined_rows(self.alloc, self.rows.items(), other.rows.items())?;
        let lives = joined_lives(
            self.alloc,
            &self.lives,
            self.rows.len(),
            &other.lives,
            other.rows.len(),
        )?;
        Ok(Segment {
            alloc: self.alloc,
            rows: SharedSlice::of(self.alloc, rows)?,
            lives: Arc::new(self.alloc, lives)?,
            hull: join_hulls(self.hull, other.hull),
            dead: both_died(self.dead, other.dead),
        })
    }

    /// Deletes, at a position at or above those of the earlier changes, the versions that are visible there and
    /// pass every test. Every version stays stored.
    pub fn kill(&self, tests: &Seq<Test>, pos: u64) -> Result<Killed, NoMemory>
        ensures after { IfOk result (λ k. k.segment ≡ map (after_kill pos tests.now) self.now) }
        ensures removed { IfOk result (λ k. k.removed ≡ length (taken_at pos tests.now self.now)) }
        ensures hull { IfOk result (λ k. k.hull ≡ hull_of (taken_at pos tests.now self.now)) }
    {
        let taken = taken_by(self.rows.items(), &self.lives, tests, pos);
        Ok(Killed {
            segment: self.after(taken.removed, tests, pos)?,
            removed: taken.removed,
            hull: taken.hull,
        })
    }

    /// The segment after a delete at a position that takes `removed` versions.
    fn after(&self, removed: u64, tests: &Seq<Test>, pos: u64) -> Result<Segment, NoMemory>
        requires counted { removed ≡ length (taken_at pos tests.now self.now) }
        ensures after { IfOk result (λ s. s ≡ map (after_kill pos tests.now) self.now) }
    {
        if removed == 0 {
            self.copy()
        } else {
            self.with_deaths(tests, pos)
        }
    }

    /// The same rows after a delete at a position.
    fn with_deaths(&self, tests: &Seq<Test>, pos: u64) -> Result<Segment, NoMemory>
        ensures after { IfOk result (λ s. s ≡ map (after_kill pos tests.now) self.now) }
    {
        let lives = lives_after(self.alloc, self.rows.items(), &self.lives, tests, pos)?;
        let dead = last_death(lives.items());
        Ok(Segment {
            alloc: self.alloc,
            rows: self.rows.copy()?,
            lives: Arc::new(self.alloc, Lives::Each(lives))?,
            hull: self.hull,
            dead,
        })
    }

    /// Appends the rows of the span that are visible at a position, in the order of the versions. Ticks once
    /// per version, and reads none if the hull of all times misses the span. When out of memory, `out` has
    /// gained the first of these rows.
    pub fn scan<L>(
        &self,
        pos: u64,
        span: Span,
        out: &mut Seq<Row>,
        steps: &mut Steps<L>,
    ) -> Result<(), NoMemory>
        ensures rows { OnOk result (out.new ≡ out.old ++ rows_at pos span self.now) }
        ensures part { OnErr result (GainsFirst (rows_at pos span self.now) out.old out.new) }
        ensures ticks { OnOk result (steps.new ≡ raised_by (length self.now) steps.old) }
        ensures at_most { OnErr result (RaisedUpTo (length self.now) steps.old steps.new) }
    {
        scan_span(
            self.rows.items(),
            &self.lives,
            self.hull,
            pos,
            span,
            out,
            steps,
        )
    }

    /// The greatest time that is visible at a position, and `None` if and only if no version is.
    pub fn last(&self, pos: u64) -> Option<i64>
        ensures last { result ≡ latest_at pos self.now }
    {
        last_time(self.rows.items(), &self.lives, pos)
    }

    /// The hull of the times of all versions, visible or not.
    pub fn hull(&self) -> Option<Hull>
        ensures hull { result ≡ hull_of (rows_of self.now) }
    {
        self.hull
    }

    /// The position of the last delete, if all versions are deleted. If there is no version, it is the first
    /// position.
    pub fn died_out(&self) -> Option<u64>
        ensures dead { result ≡ died_out self.now }
    {
        self.dead
    }

    /// The greatest time of all versions, visible or not.
    pub fn latest(&self) -> Option<i64>
        ensures latest { result ≡ latest_of (rows_of self.now) }
    {
        greatest_time(self.hull)
    }

    /// The greatest of a time and the times that are visible at a position. If no version has a later time,
    /// none is read.
    pub fn last_of(&self, pos: u64, best: Option<i64>) -> Option<i64>
        ensures last { result ≡ later_time best (latest_at pos self.now) }
    {
        if is_no_later(self.latest(), best) {
            best
        } else {
            later(best, self.last(pos))
        }
    }
}
