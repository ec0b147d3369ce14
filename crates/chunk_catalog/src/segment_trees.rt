//! Segments of a chunk in the order of their insertion.
//!
//! Small segments are joined as they accumulate, as in a binary counter. A row is copied about once for each
//! doubling of its segment, up to a limit. Larger segments are in a tree whose right side is at most as large
//! as its left, so that a new segment changes one path.
ghost use Rattle.std.specs.Prelude.{◌≡◌, ◌<◌, ◌+◌, ◌*◌, ◌^◌, ◌++◌, ℕ, List, [], true, length, map, IfOk, IfSome, OnOk, OnErr};
ghost use Rattle.std.specs.Arc.{arc_value};
ghost use Rattle.seg_rows.specs.Hulls.{hull_of};
ghost use Rattle.seg_rows.specs.Versions.{after_kill, died_out, later_time, latest_at, rows_at, rows_of, taken_at};
ghost use Rattle.ts_schema.specs.Counts.{raised_by, RaisedUpTo};
ghost use Rattle.chunk_catalog.specs.Levels.{AreFew};
ghost use Rattle.chunk_catalog.specs.SegmentTrees.{AreEven};
ghost use Rattle.chunk_catalog.specs.Reach.{HoldsPassing};
ghost use Rattle.ts_schema.specs.declared.conditions.Test.{Test};

use crate::time_ranges::TimeRange;
use seg_rows::{Segment, both_died, greatest_time, has_died, is_no_later, join_hulls};
use std::alloc::Global;
use std::marker::Model;
use std::sync::Arc;
use ts_bucket::{Hull, Span};
use ts_schema::{NoMemory, Row, Seq, Steps, Test};

/// Segments that together have at most this many versions are always joined.
const FEW: u64 = 16;

/// The greatest number of versions of a joined segment. At this size, a scan spends little on a segment
/// compared with its rows. Joining larger segments would copy each row, which they share with the inserted
/// list, and store where each was inserted.
const MANY: u64 = 64;

/// Segments in order. Contracts see their versions, and the number of levels.
#[cycle(pile)]
#[derive(Drop)]
pub struct SegmentTree {
    shape: Shape,
}

#[cycle(pile)]
#[derive(Drop)]
enum Shape {
    Leaf(Segment),
    /// The earlier segments, the later ones, the number of versions, and the hull of their times. Also the
    /// position of the last delete, if all versions are deleted.
    Fork(Arc<SegmentTree>, Arc<SegmentTree>, u64, Option<Hull>, Option<u64>),
}

impl Model for SegmentTree {
    ghost use Rattle.std.specs.Prelude.{List, ℕ};
    ghost use Rattle.seg_rows.specs.Versions.{Version};

    ghost Value = { List Version × ℕ };

    ghost use Rattle.chunk_catalog.specs.SegmentTrees.{pile_view, IsPile};

    ghost view = { λ p. pile_view p.shape };

    ghost invariant = { λ p. IsPile p.shape };

    ghost size = { λ d. d.1 };

    ghost use Rattle.std.proofs.Common.{arith};

    ghost size_decreases = { λ a h. Prim.grind arith };
}

/// A segment tree after a delete.
#[derive(Drop)]
pub struct KilledSegmentTree {
    pub pile: SegmentTree,
    pub removed: u64,
    pub hull: Option<Hull>,
}

impl SegmentTree {
    /// The segment tree of one segment, which has a version.
    pub fn of(segment: Segment) -> SegmentTree
        requires some { 0 < length segment }
        ensures versions { result.0 ≡ segment }
        ensures levels { result.1 ≡ 0 }
    {
        SegmentTree {
            shape: Shape::Leaf(segment),
        }
    }

    /// The number of versions.
    pub fn count(&self) -> u64
        ensures count { result ≡ length self.now.0 }
        ensures some { 0 < result }
        ensures few { AreFew self.now.1 (2 * result) }
    {
        match &self.shape {
            Shape::Leaf(segment) => segment.count(),
            Shape::Fork(_, _, count, _, _) => *count,
        }
    }

    /// The hull of the times of all versions, visible or not.
    fn hull(&self) -> Option<Hull>
        ensures hull { result ≡ hull_of (rows_of self.now.0) }
    {
        match &self.shape {
            Shape::Leaf(segment) => segment.hull(),
            Shape::Fork(_, _, _, hull, _) => *hull,
        }
    }

    /// The position of the last delete, if all versions are deleted.
    pub fn died_out(&self) -> Option<u64>
        ensures dead { result ≡ died_out self.now.0 }
    {
        match &self.shape {
            Shape::Leaf(segment) => segment.died_out(),
            Shape::Fork(_, _, _, _, dead) => *dead,
        }
    }

    /// Whether the hull of all times shows that none lies in a range.
    fn misses(&self, times: TimeRange) -> bool
        ensures out { result ≡ true → (tests : List Test) → HoldsPassing tests times → (pos : ℕ) →
            taken_at pos tests self.now.0 ≡ [] }
    {
        match self.hull() {
            None => false,
            Some(hull) => !times.meets(hull),
        }
    }

    /// Whether a delete at a position takes nothing, if all times that pass its tests lie in a range. It takes
    /// nothing if all versions are deleted, or none has such a time.
    fn is_spared(&self, times: TimeRange, pos: u64) -> bool
        ensures spared { result ≡ true → (tests : List Test) → HoldsPassing tests times →
            taken_at pos tests self.now.0 ≡ [] }
    {
        has_died(self.died_out(), pos) || self.misses(times)
    }

    /// Whether no version that is visible at a position has a time above the best so far.
    fn is_past(&self, pos: u64, best: Option<i64>) -> bool
        ensures past { result ≡ true → later_time best (latest_at pos self.now.0) ≡ best }
    {
        has_died(self.died_out(), pos) || is_no_later(greatest_time(self.hull()), best)
    }

    /// A copy of the segment tree.
    pub fn copy(&self) -> Result<SegmentTree, NoMemory>
        ensures same { IfOk result (λ copy. copy ≡ self.now) }
    {
        match &self.shape {
            Shape::Leaf(segment) => Ok(SegmentTree {
                shape: Shape::Leaf(segment.copy()?),
            }),
            Shape::Fork(left, right, count, hull, dead) => Ok(SegmentTree {
                shape: Shape::Fork(
                    Arc::try_clone(left)?,
                    Arc::try_clone(right)?,
                    *count,
                    *hull,
                    *dead,
                ),
            }),
        }
    }

    /// The segment tree with one more segment at its end, which has a version.
    pub fn append(&self, alloc: Global, segment: Segment) -> Result<SegmentTree, NoMemory>
        requires some { 0 < length segment }
        requires countable { length self.now.0 + length segment < 2 ^ 64 }
        ensures versions { IfOk result (λ pile. pile.0 ≡ self.now.0 ++ segment) }
    {
        match &self.shape {
            Shape::Leaf(_) => beside(alloc, self.copy()?, SegmentTree::of(segment)),
            Shape::Fork(left, right, _, _, _) => {
                if right.count() + segment.count() > left.count() {
                    return beside(alloc, self.copy()?, SegmentTree::of(segment));
                }
                let right = right.append(alloc, segment)?;
                // Reading the count tells the prover that it has 64 bits.
                let _few = right.count();
                beside(alloc, left.copy()?, right)
            }
        }
    }

    /// The segment of a tree with a single one, joined with that of another such tree, if both are small.
    fn join_segments(&self, other: &SegmentTree) -> Result<Option<Segment>, NoMemory>
        ensures joined { IfOk result (λ joined. IfSome joined (λ s. s ≡ self.now.0 ++ other.now.0)) }
    {
        match &self.shape {
            Shape::Leaf(segment) => other.joined_after(segment),
            Shape::Fork(_, _, _, _, _) => Ok(None),
        }
    }

    /// A segment joined with that of a tree with a single one, if both are small.
    fn joined_after(&self, first: &Segment) -> Result<Option<Segment>, NoMemory>
        ensures joined { IfOk result (λ joined. IfSome joined (λ s. s ≡ first.now ++ self.now.0)) }
    {
        match &self.shape {
            Shape::Leaf(second) => joined_if_small(first, second),
            Shape::Fork(_, _, _, _, _) => Ok(None),
        }
    }

    /// A delete at a position, if all times that pass the tests lie in a range.
    #[tactic(auto, using(seg_rows::proofs::VersionLaws::parts, seg_rows::proofs::VersionLaws::kill_nothing, ts_schema::proofs::Cases::and_first, ts_schema::proofs::Cases::and_second, seg_rows::proofs::VersionLaws::taken_few))]
    pub fn kill(
        &self,
        alloc: Global,
        times: TimeRange,
        tests: &Seq<Test>,
        pos: u64,
    ) -> Result<KilledSegmentTree, NoMemory>
        requires countable { length self.now.0 < 2 ^ 64 }
        requires times { HoldsPassing tests.now times }
        ensures after { IfOk result (λ k. k.pile.0 ≡ map (after_kill pos tests.now) self.now.0) }
        ensures levels { IfOk result (λ k. k.pile.1 ≡ self.now.1) }
        ensures removed { IfOk result (λ k. k.removed ≡ length (taken_at pos tests.now self.now.0)) }
        ensures hull { IfOk result (λ k. k.hull ≡ hull_of (taken_at pos tests.now self.now.0)) }
    {
        if self.is_spared(times, pos) {
            return Ok(unchanged_pile(self.copy()?));
        }
        match &self.shape {
            Shape::Leaf(segment) => {
                let killed = segment.kill(tests, pos)?;
                Ok(KilledSegmentTree {
                    pile: SegmentTree::of(killed.segment),
                    removed: killed.removed,
                    hull: killed.hull,
                })
            }
            Shape::Fork(left, right, count, hull, _) => {
                let first = left.kill(alloc, times, tests, pos)?;
                let second = right.kill(alloc, times, tests, pos)?;
                let left = replace_if_changed(alloc, left, first.pile, first.removed)?;
                let right = replace_if_changed(alloc, right, second.pile, second.removed)?;
                let dead = both_died(left.died_out(), right.died_out());
                Ok(KilledSegmentTree {
                    pile: SegmentTree {
                        shape: Shape::Fork(left, right, *count, *hull, dead),
                    },
                    removed: first.removed + second.removed,
                    hull: join_hulls(first.hull, second.hull),
                })
            }
        }
    }

    /// Appends the rows of the span that are visible at a position. Ticks once per version.
    pub fn scan<L>(
        &self,
        pos: u64,
        span: Span,
        out: &mut Seq<Row>,
        steps: &mut Steps<L>,
    ) -> Result<(), NoMemory>
        ensures rows { OnOk result (out.new ≡ out.old ++ rows_at pos span self.now.0) }
        ensures ticks { OnOk result (steps.new ≡ raised_by (length self.now.0) steps.old) }
        ensures at_most { OnErr result (RaisedUpTo (length self.now.0) steps.old steps.new) }
    {
        let _so_far = steps.count();
        match &self.shape {
            Shape::Leaf(segment) => segment.scan(pos, span, out, steps),
            Shape::Fork(left, right, _, _, _) => {
                left.scan(pos, span, out, steps)?;
                right.scan(pos, span, out, steps)
            }
        }
    }

    /// The greatest of a time and the times that are visible at a position. The later segments come first, and
    /// those that hold no later time aren't read.
    #[tactic(auto, using(seg_rows::proofs::VersionLaws::parts))]
    pub fn last_of(&self, pos: u64, best: Option<i64>) -> Option<i64>
        ensures last { result ≡ later_time best (latest_at pos self.now.0) }
    {
        if self.is_past(pos, best) {
            return best;
        }
        match &self.shape {
            Shape::Leaf(segment) => segment.last_of(pos, best),
            Shape::Fork(left, right, _, _, _) => left.last_of(pos, right.last_of(pos, best)),
        }
    }
}

/// A segment tree from which a delete took nothing.
fn unchanged_pile(pile: SegmentTree) -> KilledSegmentTree
    ensures pile { result.pile ≡ pile }
    ensures removed { result.removed ≡ 0 }
    ensures hull { result.hull ≡ None }
{
    KilledSegmentTree {
        pile,
        removed: 0,
        hull: None,
    }
}

/// One segment tree after another: as one segment if both are small segments.
fn beside(alloc: Global, left: SegmentTree, right: SegmentTree) -> Result<SegmentTree, NoMemory>
    requires even { AreEven left right }
    requires countable { length left.0 + length right.0 < 2 ^ 64 }
    ensures versions { IfOk result (λ pile. pile.0 ≡ left.0 ++ right.0) }
{
    // Reading the count tells the prover that it has 64 bits.
    let _some = left.count();
    match left.join_segments(&right)? {
        Some(segment) => Ok(SegmentTree::of(segment)),
        None => fork(alloc, left, right),
    }
}

/// The segment tree of two siblings.
fn fork(alloc: Global, left: SegmentTree, right: SegmentTree) -> Result<SegmentTree, NoMemory>
    requires even { AreEven left right }
    requires countable { length left.0 + length right.0 < 2 ^ 64 }
    ensures versions { IfOk result (λ pile. pile.0 ≡ left.0 ++ right.0) }
{
    let count = left.count() + right.count();
    let hull = join_hulls(left.hull(), right.hull());
    let dead = both_died(left.died_out(), right.died_out());
    let left = Arc::new(alloc, left)?;
    let right = Arc::new(alloc, right)?;
    Ok(SegmentTree {
        shape: Shape::Fork(left, right, count, hull, dead),
    })
}

/// Two segments joined into one, if they have few versions, or if the first isn't much larger and the limit
/// isn't exceeded.
fn joined_if_small(first: &Segment, second: &Segment) -> Result<Option<Segment>, NoMemory>
    ensures joined { IfOk result (λ joined. IfSome joined (λ s. s ≡ first.now ++ second.now)) }
{
    if is_joined(first.count(), second.count()) {
        Ok(Some(first.join(second)?))
    } else {
        Ok(None)
    }
}

/// Whether segments of these sizes are joined.
fn is_joined(first: u64, second: u64) -> bool {
    let both = first.saturating_add(second);
    both <= FEW || (both <= MANY && first / 2 <= second)
}

/// A segment tree after a change, or the old one if nothing was removed.
fn replace_if_changed(
    alloc: Global,
    old: &Arc<SegmentTree>,
    new: SegmentTree,
    removed: u64,
) -> Result<Arc<SegmentTree>, NoMemory>
    requires same { removed ≡ 0 → new.0 ≡ (arc_value old.now).0 }
    requires levels { new.1 ≡ (arc_value old.now).1 }
    ensures versions { IfOk result (λ pile. (arc_value pile).0 ≡ new.0) }
    ensures levels { IfOk result (λ pile. (arc_value pile).1 ≡ new.1) }
{
    if removed == 0 {
        Ok(Arc::try_clone(old)?)
    } else {
        Ok(Arc::new(alloc, new)?)
    }
}
