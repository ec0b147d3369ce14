//! A fold of rows from several lists.
ghost use Rattle.std.specs.Prelude.{◌≡◌, ◌++◌, [], List, IfOk, OnOk};
ghost use Rattle.ts_schema.specs.declared.rows.Row.{Row as RowValue};
ghost use Rattle.ts_model.specs.declared.views.Fold.{Fold as FoldValue};
ghost use Rattle.ts_model.specs.Groups.{groups_of};
ghost use Rattle.group_fold.specs.Foldings.{HasTaken};
ghost use Rattle.group_fold.specs.Grouping.{AreTimes};

use crate::group_table::GroupTable;
use crate::orders::in_order;
use crate::pieces::MOST_ROWS;
use partial_agg::Group;
use std::alloc::Global;
use std::marker::Model;
use ts_model::Fold;
use ts_schema::{NoMemory, Row, Seq};

/// A fold under construction. Contracts see its groups so far in some order, and how many rows it has read.
#[derive(Drop)]
pub struct FoldBuilder {
    gathered: GroupTable,
    count: u64,
}

impl Model for FoldBuilder {
    ghost use Rattle.group_fold.specs.Foldings.{FoldingValue};

    ghost Value = { FoldingValue };

    ghost view = { λ f. record { groups = f.gathered.groups; count = f.count } };
}

impl FoldBuilder {
    /// A fold that hasn't read any row.
    pub fn new(alloc: Global) -> FoldBuilder
        ensures none { (plan : FoldValue) → HasTaken plan [] result }
    {
        FoldBuilder {
            gathered: GroupTable::new(alloc),
            count: 0,
        }
    }

    /// Adds these rows, by the same plan as the others. Fails as out of memory for 2^62 rows or more in all.
    /// After a failure the fold can't be used.
    pub fn take(&mut self, alloc: Global, plan: &Fold, rows: &[Row]) -> Result<(), NoMemory>
        requires times { AreTimes rows.now }
        requires before { (before : List RowValue) × HasTaken plan.now before self.old }
        ensures taken { (before : List RowValue) → HasTaken plan.now before self.old
            → OnOk result (HasTaken plan.now (before ++ rows.now) self.new) }
    {
        let Some(count) = self.count.checked_add(rows.len() as u64) else {
            return Err(NoMemory);
        };
        if count >= MOST_ROWS {
            return Err(NoMemory);
        }
        // Reading a width tells the prover that it keeps its bounds.
        let _step = plan.width.step;
        self.gathered.take_rows(alloc, plan, rows)?;
        self.count = count;
        Ok(())
    }

    /// The groups of all rows that were added, in order by bucket and keys.
    pub fn finish(self, alloc: Global) -> Result<Seq<Group>, NoMemory>
        requires taken { (plan : FoldValue) × (rows : List RowValue) × HasTaken plan rows self }
        ensures groups { (plan : FoldValue) (rows : List RowValue) → HasTaken plan rows self
            → IfOk result (λ groups. groups ≡ groups_of plan rows) }
    {
        let gathered = self.gathered;
        let groups = gathered.groups.settle(alloc)?;
        Ok(Seq::of(in_order(alloc, groups)?))
    }
}
