//! Materialized groups.

ghost use Rattle.std.specs.Prelude.{◌≡◌, ◌==◌, [], length, IfOk};
ghost use Rattle.mat_rows.specs.Replacing.{AreSpans, BucketsAreOfBoth, PassAsBoth, SpansRise};
ghost use Rattle.partial_agg.specs.Groups.{AreInOrder};
ghost use Rattle.mat_rows.specs.Replacing.{groups_replaced, within};

use crate::making::{in_blocks, keep, keep_within};
use crate::search::places;
use block_list::{BlockList, Builder, Iter, Slice};
use partial_agg::Group;
use std::alloc::Global;
use std::marker::Model;
use ts_bucket::Span;
use ts_schema::{NoMemory, Seq};

/// Groups in order: by bucket, and then by keys. Contracts see them as a list.
///
/// They are stored in blocks of at most 64, which copies share.
#[derive(Drop, Debug)]
pub struct MatRows {
    groups: BlockList<Group>,
}

impl Model for MatRows {
    ghost use Rattle.std.specs.Prelude.{List};
    ghost use Rattle.partial_agg.specs.declared.groups.Group.{Group};
    ghost use Rattle.partial_agg.specs.Groups.{AreInOrder};

    ghost Value = { List Group };

    ghost view = { λ m. m.groups.items };

    ghost invariant = { λ m. AreInOrder m.groups.items };
}

impl MatRows {
    /// No groups. It allocates no memory.
    pub fn new(alloc: Global) -> MatRows
        ensures groups { result ≡ [] }
    {
        MatRows {
            groups: BlockList::new(alloc),
        }
    }

    /// Groups in order, which move into blocks.
    pub fn of(alloc: Global, groups: Seq<Group>) -> Result<MatRows, NoMemory>
        requires order { AreInOrder groups }
        ensures groups { IfOk result (λ rows. rows ≡ groups) }
    {
        Ok(MatRows {
            groups: in_blocks(alloc, groups.into_items())?,
        })
    }

    /// The number of groups.
    pub fn len(&self) -> usize
        ensures len { result ≡ length self.now }
    {
        self.groups.len()
    }

    /// Whether there is no group.
    pub fn is_empty(&self) -> bool
        ensures empty { result ≡ (length self.now == 0) }
    {
        self.groups.is_empty()
    }

    /// States that the groups are in order. Does nothing.
    pub fn order(&self)
        ensures order { AreInOrder self.now }
    {
        let _groups = &self.groups;
    }

    /// The groups, in order.
    pub fn iter(&self) -> Iter<'_, Group>
        ensures groups { result ≡ self.now }
    {
        self.groups.iter()
    }

    /// Another owner of the same groups. It only increments a reference count.
    pub fn copy(&self) -> Result<MatRows, NoMemory>
        ensures same { IfOk result (λ copy. copy ≡ self.now) }
    {
        Ok(MatRows {
            groups: self.groups.copy()?,
        })
    }

    /// The groups, with those whose buckets start in the spans, which rise, replaced by new ones. New groups
    /// that start in no span are ignored. The cost grows with the groups of both lists in the blocks in which
    /// the spans end. It also grows with the blocks of the inner nodes there, and the number of inner nodes.
    pub fn replace(&self, spans: &Seq<Span>, groups: &MatRows) -> Result<MatRows, NoMemory>
        requires sizes { AreSpans spans.now }
        requires rising { SpansRise spans.now }
        ensures groups { IfOk result (λ rows. rows ≡ groups_replaced spans.now groups.now self.now) }
        ensures buckets { IfOk result (BucketsAreOfBoth spans.now groups.now self.now) }
        ensures all { IfOk result (PassAsBoth groups.now self.now) }
    {
        Ok(MatRows {
            groups: replaced_in(&self.groups, spans.items(), &groups.groups)?,
        })
    }

    /// The groups whose buckets start in a span. The result shares the blocks that they are in: it only
    /// increments a reference count.
    pub fn slice(&self, span: Span) -> Result<Slice<Group>, NoMemory>
        ensures groups { IfOk result (λ groups. groups ≡ within span self.now) }
    {
        let (start, end) = places(&self.groups, span);
        self.groups.slice(start, end)
    }
}

/// The groups of a list, with those that start in the spans replaced by those of another list.
fn replaced_in(
    old: &BlockList<Group>,
    spans: &[Span],
    groups: &BlockList<Group>,
) -> Result<BlockList<Group>, NoMemory>
    requires old { AreInOrder old.now.items }
    requires sizes { AreSpans spans.now }
    requires rising { SpansRise spans.now }
    requires order { AreInOrder groups.now.items }
    ensures { IfOk result (λ made. made.items ≡ groups_replaced spans.now groups.now.items old.now.items) }
{
    let mut made = Builder::new(old.allocator());
    let mut at = 0;
    for span in spans {
        let (start, end) = places(old, *span);
        keep(&mut made, old, at, start)?;
        keep_within(&mut made, groups, *span)?;
        at = end;
    }
    keep(&mut made, old, at, old.len())?;
    made.finish()
}
