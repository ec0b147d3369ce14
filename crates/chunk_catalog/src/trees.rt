//! Chunks in the order of their starts, in a balanced tree. A change copies one path of it.
ghost use Rattle.std.specs.Prelude.{◌≡◌, ◌<◌, ◌<ℤ◌, ◌+◌, ◌^◌, ◌++◌, ℕ, List, [], suc, max, true, length, map, IfOk, IfSome, OnOk, OnErr};
ghost use Rattle.std.specs.Arc.{arc_value};
ghost use Rattle.seg_rows.specs.Hulls.{hull_at, hull_of, joined_hull};
ghost use Rattle.seg_rows.specs.Versions.{died_out, latest_at, later_time, rows_at, taken_at, HasMore};
ghost use Rattle.ts_schema.specs.Counts.{raised_by, RaisedUpTo};
ghost use Rattle.ts_bucket.specs.Chunks.{IsInterval};
ghost use Rattle.chunk_catalog.specs.Levels.{AreLevel, AreNear, Balances, FewLevels, Grows, no_tree, tree_over};
ghost use Rattle.chunk_catalog.specs.Reach.{HoldsPassing};
ghost use Rattle.ts_schema.specs.declared.conditions.Test.{Test};
ghost use Rattle.chunk_catalog.specs.Places.{AreOut, after_kill_in, in_chunk, versions_in, versions_of, ArePlaced, StartsIn};

use crate::chunk::{Chunk, KilledChunk};
use crate::time_ranges::{TimeRange, is_past};
use seg_rows::{Segment, both_died, has_died, join_hulls};
use std::alloc::Global;
use std::marker::Model;
use std::sync::Arc;
use ts_bucket::{Hull, Span};
use ts_schema::{NoMemory, Row, Seq, Steps, Test};

/// Chunks in order. Contracts see their versions, and the number of levels.
#[cycle(tree)]
#[derive(Drop)]
pub struct Tree {
    node: Node,
}

#[cycle(tree)]
#[derive(Drop)]
enum Node {
    Empty,
    /// The chunks before this one, this one, the chunks after it, the hull of all their starts, and the number
    /// of levels. Also the position of the last delete, if all versions are deleted.
    Fork(Arc<Tree>, Chunk, Arc<Tree>, Hull, u64, Option<u64>),
}

impl Model for Tree {
    ghost use Rattle.chunk_catalog.specs.Levels.{TreeValue};

    ghost Value = { TreeValue };

    ghost use Rattle.chunk_catalog.specs.Trees.{tree_view, IsTree};

    ghost view = { λ t. tree_view t.node };

    ghost invariant = { λ t. IsTree t.node };

    ghost size = { λ d. d.1.chunks };

    ghost use Rattle.std.proofs.Common.{arith};

    ghost size_decreases = { λ a h. Prim.grind arith };
}

/// A tree after a delete.
#[derive(Drop)]
pub struct KilledTree {
    pub tree: Tree,
    pub removed: u64,
    pub hull: Option<Hull>,
}

impl Tree {
    /// No chunk.
    pub fn new() -> Tree
        ensures none { result ≡ no_tree }
    {
        Tree { node: Node::Empty }
    }

    /// The number of levels of chunks.
    pub fn height(&self) -> u64
        ensures height { result ≡ self.now.1.chunks }
        ensures few { FewLevels self.now.1 (length self.now.0) }
    {
        match &self.node {
            Node::Empty => 0,
            Node::Fork(_, _, _, _, height, _) => *height,
        }
    }

    /// A hull of all starts.
    fn starts(&self) -> Option<Hull>
        ensures all { StartsIn result self.now.0 }
    {
        match &self.node {
            Node::Empty => None,
            Node::Fork(_, _, _, starts, _, _) => Some(*starts),
        }
    }

    /// Whether no start lies in a range.
    fn misses(&self, reach: TimeRange) -> bool
        ensures out { result ≡ true → AreOut reach self.now.0 }
    {
        match &self.node {
            Node::Empty => true,
            Node::Fork(_, _, _, starts, _, _) => !reach.meets(*starts),
        }
    }

    /// The position of the last delete, if all versions are deleted.
    fn died_out(&self) -> Option<u64>
        ensures dead { result ≡ died_out (versions_of self.now.0) }
    {
        match &self.node {
            Node::Empty => Some(0),
            Node::Fork(_, _, _, _, _, dead) => *dead,
        }
    }

    /// Whether a delete at a position takes nothing from the chunks whose starts lie in a range. It takes
    /// nothing if all versions are deleted, or there is no such chunk.
    fn is_spared(&self, reach: TimeRange, pos: u64) -> bool
        ensures spared { result ≡ true → (tests : List Test) → taken_at pos tests (versions_in reach self.now.0) ≡ [] }
    {
        has_died(self.died_out(), pos) || self.misses(reach)
    }

    /// Whether no version that is visible at a position has a time above the best so far.
    fn has_no_later(&self, interval: i64, pos: u64, best: Option<i64>) -> bool
        requires interval { IsInterval interval }
        requires placed { ArePlaced interval self.now.0 }
        ensures past { result ≡ true → later_time best (latest_at pos (versions_of self.now.0)) ≡ best }
    {
        has_died(self.died_out(), pos) || self.is_past(interval, best)
    }

    /// Whether no chunk holds a time above the best so far.
    fn is_past(&self, interval: i64, best: Option<i64>) -> bool
        requires interval { IsInterval interval }
        requires placed { ArePlaced interval self.now.0 }
        ensures past { result ≡ true → (pos : ℕ) → later_time best (latest_at pos (versions_of self.now.0)) ≡ best }
    {
        match &self.node {
            Node::Empty => true,
            Node::Fork(_, _, _, starts, _, _) => is_past(interval, starts.most, best),
        }
    }

    /// A copy of the tree.
    pub fn copy(&self) -> Result<Tree, NoMemory>
        ensures same { IfOk result (λ copy. copy ≡ self.now) }
    {
        match &self.node {
            Node::Empty => Ok(Tree { node: Node::Empty }),
            Node::Fork(left, chunk, right, starts, height, dead) => Ok(Tree {
                node: Node::Fork(
                    Arc::try_clone(left)?,
                    chunk.copy()?,
                    Arc::try_clone(right)?,
                    *starts,
                    *height,
                    *dead,
                ),
            }),
        }
    }

    /// The chunks with one more segment, which has a version, in the chunk with this start.
    pub fn with(&self, alloc: Global, start: i64, segment: Segment) -> Result<Tree, NoMemory>
        requires some { 0 < length segment }
        requires countable { length self.now.0 + length segment < 2 ^ 64 }
        ensures versions { IfOk result (λ tree. HasMore (in_chunk start segment) self.now.0 tree.0) }
        ensures grows { IfOk result (λ tree. Grows self.now.1 tree.1) }
    {
        match &self.node {
            Node::Empty => {
                let left = Arc::new(alloc, Tree::new())?;
                let right = Arc::new(alloc, Tree::new())?;
                Ok(fork(left, Chunk::of(start, segment), right))
            }
            Node::Fork(left, chunk, right, _, _, _) => {
                let here = chunk.start();
                if start < here {
                    let left = left.with(alloc, start, segment)?;
                    let left = Arc::new(alloc, left)?;
                    balance(alloc, &left, chunk, right)
                } else if here < start {
                    let right = right.with(alloc, start, segment)?;
                    let right = Arc::new(alloc, right)?;
                    balance(alloc, left, chunk, &right)
                } else {
                    fork_with_segment(alloc, left, chunk, right, segment)
                }
            }
        }
    }

    /// A delete at a position in the chunks whose starts lie in a range, if all times that pass the tests lie
    /// in another one.
    #[tactic(auto, using(crate::proofs::PlaceLaws::out_reached, crate::proofs::PlaceLaws::out_killed))]
    pub fn kill(
        &self,
        alloc: Global,
        reach: TimeRange,
        times: TimeRange,
        tests: &Seq<Test>,
        pos: u64,
    ) -> Result<KilledTree, NoMemory>
        requires countable { length self.now.0 < 2 ^ 64 }
        requires times { HoldsPassing tests.now times }
        ensures after { IfOk result (λ k. k.tree.0 ≡ map (after_kill_in reach pos tests.now) self.now.0) }
        ensures levels { IfOk result (λ k. k.tree.1 ≡ self.now.1) }
        ensures removed { IfOk result (λ k. k.removed ≡ length (taken_at pos tests.now (versions_in reach self.now.0))) }
        ensures hull { IfOk result (λ k. k.hull ≡ hull_of (taken_at pos tests.now (versions_in reach self.now.0))) }
    {
        if self.is_spared(reach, pos) {
            return Ok(unchanged_tree(self.copy()?));
        }
        match &self.node {
            Node::Empty => Ok(unchanged_tree(Tree::new())),
            Node::Fork(left, chunk, right, _, _, _) => {
                let first = left.kill(alloc, reach, times, tests, pos)?;
                let middle = chunk.kill_in(alloc, reach, times, tests, pos)?;
                let second = right.kill(alloc, reach, times, tests, pos)?;
                after_kills(alloc, left, first, middle, right, second)
            }
        }
    }

    /// Appends the rows of the span that are visible at a position, of the chunks whose starts lie in
    /// a range. Ticks once per version of these chunks.
    #[tactic(auto, using(crate::proofs::PlaceLaws::places, crate::proofs::PlaceLaws::out_reached, seg_rows::proofs::VersionLaws::parts))]
    pub fn scan<L>(
        &self,
        reach: TimeRange,
        pos: u64,
        span: Span,
        out: &mut Seq<Row>,
        steps: &mut Steps<L>,
    ) -> Result<(), NoMemory>
        ensures rows { OnOk result (out.new ≡ out.old ++ rows_at pos span (versions_in reach self.now.0)) }
        ensures ticks { OnOk result (steps.new ≡ raised_by (length (versions_in reach self.now.0)) steps.old) }
        ensures at_most { OnErr result (RaisedUpTo (length (versions_in reach self.now.0)) steps.old steps.new) }
    {
        let _so_far = steps.count();
        if self.misses(reach) {
            return Ok(());
        }
        match &self.node {
            Node::Empty => Ok(()),
            Node::Fork(left, chunk, right, _, _, _) => {
                left.scan(reach, pos, span, out, steps)?;
                chunk.scan_in(reach, pos, span, out, steps)?;
                right.scan(reach, pos, span, out, steps)
            }
        }
    }

    /// The number of versions of the chunks whose starts lie in a range.
    #[tactic(auto, using(crate::proofs::PlaceLaws::places, crate::proofs::PlaceLaws::out_reached, crate::proofs::PlaceLaws::reached_few, seg_rows::proofs::VersionLaws::parts))]
    pub fn held(&self, reach: TimeRange) -> u64
        requires countable { length self.now.0 < 2 ^ 64 }
        ensures held { result ≡ length (versions_in reach self.now.0) }
    {
        if self.misses(reach) {
            return 0;
        }
        match &self.node {
            Node::Empty => 0,
            Node::Fork(left, chunk, right, _, _, _) => {
                left.held(reach) + chunk.count_in(reach) + right.held(reach)
            }
        }
    }

    /// The start of a chunk inside a span: the one nearest to the root.
    pub fn start_in(&self, span: Span) -> Option<i64>
        ensures inside { IfSome result (λ t. (span.lo <ℤ t) × (t <ℤ span.hi)) }
    {
        match &self.node {
            Node::Empty => None,
            Node::Fork(left, chunk, right, _, _, _) => {
                let start = chunk.start();
                if start <= span.lo {
                    return right.start_in(span);
                }
                if start >= span.hi {
                    return left.start_in(span);
                }
                Some(start)
            }
        }
    }

    /// The greatest of a time and the times that are visible at a position. The latest chunks come first, and
    /// those that hold no later time aren't read.
    #[tactic(auto, using(crate::proofs::PlaceLaws::places, crate::proofs::PlaceLaws::later_first, seg_rows::proofs::VersionLaws::parts))]
    pub fn last(&self, interval: i64, pos: u64, best: Option<i64>) -> Option<i64>
        requires interval { IsInterval interval }
        requires placed { ArePlaced interval self.now.0 }
        ensures last { result ≡ later_time best (latest_at pos (versions_of self.now.0)) }
    {
        if self.has_no_later(interval, pos, best) {
            return best;
        }
        match &self.node {
            Node::Empty => best,
            Node::Fork(left, chunk, right, _, _, _) => {
                let best = right.last(interval, pos, best);
                let best = chunk.last_of(interval, pos, best);
                left.last(interval, pos, best)
            }
        }
    }
}

/// A tree that a delete didn't change.
fn unchanged_tree(tree: Tree) -> KilledTree
    ensures tree { result.tree ≡ tree }
    ensures removed { result.removed ≡ 0 }
    ensures hull { result.hull ≡ None }
{
    KilledTree {
        tree,
        removed: 0,
        hull: None,
    }
}

/// A tree after a change, or the old one if nothing was removed.
fn replace_if_changed(
    alloc: Global,
    old: &Arc<Tree>,
    new: Tree,
    removed: u64,
) -> Result<Arc<Tree>, NoMemory>
    requires same { removed ≡ 0 → new.0 ≡ (arc_value old.now).0 }
    requires levels { new.1 ≡ (arc_value old.now).1 }
    ensures tree { IfOk result (λ tree. arc_value tree ≡ new) }
{
    if removed == 0 {
        Ok(Arc::try_clone(old)?)
    } else {
        Ok(Arc::new(alloc, new)?)
    }
}

/// Two trees and a chunk between them after deletes, as one tree.
fn after_kills(
    alloc: Global,
    left: &Arc<Tree>,
    first: KilledTree,
    middle: KilledChunk,
    right: &Arc<Tree>,
    second: KilledTree,
) -> Result<KilledTree, NoMemory>
    requires first { first.removed ≡ 0 → first.tree.0 ≡ (arc_value left.now).0 }
    requires first_levels { first.tree.1 ≡ (arc_value left.now).1 }
    requires second { second.removed ≡ 0 → second.tree.0 ≡ (arc_value right.now).0 }
    requires second_levels { second.tree.1 ≡ (arc_value right.now).1 }
    requires even { AreLevel first.tree.1 second.tree.1 }
    requires countable { length (tree_over first.tree middle.chunk second.tree).0 < 2 ^ 64 }
    requires few { first.removed + middle.removed + second.removed < 2 ^ 64 }
    ensures tree { IfOk result (λ k. k.tree ≡ tree_over first.tree middle.chunk second.tree) }
    ensures removed { IfOk result (λ k. k.removed ≡ first.removed + middle.removed + second.removed) }
    ensures hull { IfOk result (λ k. k.hull ≡ joined_hull (joined_hull first.hull middle.hull) second.hull) }
{
    let left = replace_if_changed(alloc, left, first.tree, first.removed)?;
    let right = replace_if_changed(alloc, right, second.tree, second.removed)?;
    Ok(KilledTree {
        tree: fork(left, middle.chunk, right),
        removed: first.removed + middle.removed + second.removed,
        hull: join_hulls(join_hulls(first.hull, middle.hull), second.hull),
    })
}

/// The chunks of one tree, one more chunk, and those of another tree.
fn fork(left: Arc<Tree>, chunk: Chunk, right: Arc<Tree>) -> Tree
    requires even { AreLevel (arc_value left).1 (arc_value right).1 }
    requires countable { length (tree_over (arc_value left) chunk (arc_value right)).0 < 2 ^ 64 }
    ensures tree { result ≡ tree_over (arc_value left) chunk (arc_value right) }
{
    // Reading the count tells the prover that it has 64 bits.
    let _some = chunk.count();
    let starts = hull_with(&chunk, join_hulls(left.starts(), right.starts()));
    let height = left.height().max(right.height()) + 1;
    let dead = both_died(
        both_died(left.died_out(), chunk.died_out()),
        right.died_out(),
    );
    Tree {
        node: Node::Fork(left, chunk, right, starts, height, dead),
    }
}

/// The least hull that holds the start of a chunk and another hull.
fn hull_with(chunk: &Chunk, others: Option<Hull>) -> Hull
    ensures joined { Some result ≡ joined_hull (hull_at chunk.now.start) others }
{
    let start = chunk.start();
    match others {
        None => Hull {
            least: start,
            most: start,
        },
        Some(hull) => Hull {
            least: start.min(hull.least),
            most: start.max(hull.most),
        },
    }
}

/// The same as `fork`, with copies.
fn fork_of_copies(left: &Arc<Tree>, chunk: &Chunk, right: &Arc<Tree>) -> Result<Tree, NoMemory>
    requires even { AreLevel (arc_value left.now).1 (arc_value right.now).1 }
    requires countable { length (tree_over (arc_value left.now) chunk.now (arc_value right.now)).0 < 2 ^ 64 }
    ensures tree { IfOk result (λ tree. tree ≡ tree_over (arc_value left.now) chunk.now (arc_value right.now)) }
{
    Ok(fork(Arc::try_clone(left)?, chunk.copy()?, Arc::try_clone(right)?))
}

/// The same with one more segment in the chunk, which has a version.
fn fork_with_segment(
    alloc: Global,
    left: &Arc<Tree>,
    chunk: &Chunk,
    right: &Arc<Tree>,
    segment: Segment,
) -> Result<Tree, NoMemory>
    requires some { 0 < length segment }
    requires even { AreLevel (arc_value left.now).1 (arc_value right.now).1 }
    requires countable { let whole = (tree_over (arc_value left.now) chunk.now (arc_value right.now)).0 in
        length whole + length segment < 2 ^ 64 }
    ensures versions { let whole = (tree_over (arc_value left.now) chunk.now (arc_value right.now)).0 in
        IfOk result (λ tree. HasMore (in_chunk chunk.now.start segment) whole tree.0) }
    ensures levels { IfOk result (λ tree.
        tree.1.chunks ≡ suc (max (arc_value left.now).1.chunks (arc_value right.now).1.chunks)) }
{
    let chunk = chunk.append(alloc, segment)?;
    Ok(fork(Arc::try_clone(left)?, chunk, Arc::try_clone(right)?))
}

/// The same as `fork`, as a shared part of another tree.
fn share_fork(
    alloc: Global,
    left: &Arc<Tree>,
    chunk: &Chunk,
    right: &Arc<Tree>,
) -> Result<Arc<Tree>, NoMemory>
    requires even { AreLevel (arc_value left.now).1 (arc_value right.now).1 }
    requires countable { length (tree_over (arc_value left.now) chunk.now (arc_value right.now)).0 < 2 ^ 64 }
    ensures tree { IfOk result (λ tree.
        arc_value tree ≡ tree_over (arc_value left.now) chunk.now (arc_value right.now)) }
{
    Ok(Arc::new(alloc, fork_of_copies(left, chunk, right)?)?)
}

/// The same as `fork`, if one side may have two more levels than the other.
fn balance(
    alloc: Global,
    left: &Arc<Tree>,
    chunk: &Chunk,
    right: &Arc<Tree>,
) -> Result<Tree, NoMemory>
    requires near { AreNear (arc_value left.now).1 (arc_value right.now).1 }
    requires countable { length (tree_over (arc_value left.now) chunk.now (arc_value right.now)).0 < 2 ^ 64 }
    ensures versions { IfOk result (λ tree.
        tree.0 ≡ (tree_over (arc_value left.now) chunk.now (arc_value right.now)).0) }
    ensures levels { IfOk result (λ tree. Balances (arc_value left.now).1 (arc_value right.now).1 tree.1) }
{
    if left.height().saturating_sub(right.height()) > 1 {
        lean_right(alloc, left, chunk, right)
    } else if right.height().saturating_sub(left.height()) > 1 {
        lean_left(alloc, left, chunk, right)
    } else {
        fork_of_copies(left, chunk, right)
    }
}

/// The same as `fork`, if the left side is higher: a part of it moves to the right.
fn lean_right(
    alloc: Global,
    left: &Arc<Tree>,
    chunk: &Chunk,
    right: &Arc<Tree>,
) -> Result<Tree, NoMemory>
    requires higher { (arc_value left.now).1.chunks ≡ suc (suc (arc_value right.now).1.chunks) }
    requires countable { length (tree_over (arc_value left.now) chunk.now (arc_value right.now)).0 < 2 ^ 64 }
    ensures versions { IfOk result (λ tree.
        tree.0 ≡ (tree_over (arc_value left.now) chunk.now (arc_value right.now)).0) }
    ensures levels { IfOk result (λ tree. Balances (arc_value left.now).1 (arc_value right.now).1 tree.1) }
{
    match &left.node {
        Node::Empty => fork_of_copies(left, chunk, right),
        Node::Fork(first, before, second, _, _, _) => {
            if second.height() > first.height() {
                return spread_left(alloc, first, before, second, chunk, right);
            }
            let lower = share_fork(alloc, second, chunk, right)?;
            fork_of_copies(first, before, &lower)
        }
    }
}

/// Five parts in order as one tree: the parts of the second tree go to both sides.
fn spread_left(
    alloc: Global,
    first: &Arc<Tree>,
    before: &Chunk,
    second: &Arc<Tree>,
    chunk: &Chunk,
    third: &Arc<Tree>,
) -> Result<Tree, NoMemory>
    requires lower { (arc_value first.now).1.chunks ≡ (arc_value third.now).1.chunks }
    requires higher { (arc_value second.now).1.chunks ≡ suc (arc_value third.now).1.chunks }
    requires countable { let left = tree_over (arc_value first.now) before.now (arc_value second.now) in
        length (tree_over left chunk.now (arc_value third.now)).0 < 2 ^ 64 }
    ensures versions { let left = tree_over (arc_value first.now) before.now (arc_value second.now) in
        IfOk result (λ tree. tree.0 ≡ (tree_over left chunk.now (arc_value third.now)).0) }
    ensures levels { IfOk result (λ tree. tree.1.chunks ≡ suc (suc (arc_value third.now).1.chunks)) }
{
    match &second.node {
        Node::Empty => {
            let lower = share_fork(alloc, second, chunk, third)?;
            fork_of_copies(first, before, &lower)
        }
        Node::Fork(near, middle, far, _, _, _) => {
            let left = share_fork(alloc, first, before, near)?;
            let right = share_fork(alloc, far, chunk, third)?;
            fork_of_copies(&left, middle, &right)
        }
    }
}

/// The same as `fork`, if the right side is higher: a part of it moves to the left.
fn lean_left(
    alloc: Global,
    left: &Arc<Tree>,
    chunk: &Chunk,
    right: &Arc<Tree>,
) -> Result<Tree, NoMemory>
    requires higher { (arc_value right.now).1.chunks ≡ suc (suc (arc_value left.now).1.chunks) }
    requires countable { length (tree_over (arc_value left.now) chunk.now (arc_value right.now)).0 < 2 ^ 64 }
    ensures versions { IfOk result (λ tree.
        tree.0 ≡ (tree_over (arc_value left.now) chunk.now (arc_value right.now)).0) }
    ensures levels { IfOk result (λ tree. Balances (arc_value left.now).1 (arc_value right.now).1 tree.1) }
{
    match &right.node {
        Node::Empty => fork_of_copies(left, chunk, right),
        Node::Fork(first, after, second, _, _, _) => {
            if first.height() > second.height() {
                return spread_right(alloc, left, chunk, first, after, second);
            }
            let lower = share_fork(alloc, left, chunk, first)?;
            fork_of_copies(&lower, after, second)
        }
    }
}

/// Five parts in order as one tree: the parts of the second tree go to both sides.
fn spread_right(
    alloc: Global,
    first: &Arc<Tree>,
    chunk: &Chunk,
    second: &Arc<Tree>,
    after: &Chunk,
    third: &Arc<Tree>,
) -> Result<Tree, NoMemory>
    requires lower { (arc_value third.now).1.chunks ≡ (arc_value first.now).1.chunks }
    requires higher { (arc_value second.now).1.chunks ≡ suc (arc_value first.now).1.chunks }
    requires countable { let right = tree_over (arc_value second.now) after.now (arc_value third.now) in
        length (tree_over (arc_value first.now) chunk.now right).0 < 2 ^ 64 }
    ensures versions { let right = tree_over (arc_value second.now) after.now (arc_value third.now) in
        IfOk result (λ tree. tree.0 ≡ (tree_over (arc_value first.now) chunk.now right).0) }
    ensures levels { IfOk result (λ tree. tree.1.chunks ≡ suc (suc (arc_value first.now).1.chunks)) }
{
    match &second.node {
        Node::Empty => {
            let lower = share_fork(alloc, first, chunk, second)?;
            fork_of_copies(&lower, after, third)
        }
        Node::Fork(near, middle, far, _, _, _) => {
            let left = share_fork(alloc, first, chunk, near)?;
            let right = share_fork(alloc, far, after, third)?;
            fork_of_copies(&left, middle, &right)
        }
    }
}
