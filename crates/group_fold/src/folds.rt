//! The groups of a list of rows.
ghost use Rattle.std.specs.Prelude.{◌≡◌, IfOk};
ghost use Rattle.ts_schema.specs.declared.rows.Row.{Row};
ghost use Rattle.ts_bucket.specs.Bucket.{IsWidth};
ghost use Rattle.group_fold.specs.Grouping.{AreGroupsInAnyOrder, AreTimes, ShowScratch};
ghost use Rattle.ts_model.specs.Groups.{groups_of};

use crate::group_table::GroupTable;
use crate::orders::in_order;
use partial_agg::Group;
use std::alloc::Global;
use ts_model::Fold;
use ts_schema::{NoMemory, Row, Seq};

/// The groups of the rows that pass every test, in order by bucket and keys, with one partial aggregate for
/// each aggregate of the plan. The order of the rows has no effect.
pub fn fold(alloc: Global, plan: &Fold, rows: &Seq<Row>) -> Result<Seq<Group>, NoMemory>
    requires { AreTimes rows.now }
    ensures groups { IfOk result (λ groups. groups ≡ groups_of plan.now rows.now) }
    ensures scratch { IfOk result (λ groups. ShowScratch plan.now rows.now groups) }
    ensures any_order { IfOk result (AreGroupsInAnyOrder plan.now rows.now) }
    ensures bounds { IsWidth plan.now.width }
{
    // Reading a width tells the prover that it keeps its bounds.
    let _step = plan.width.step;
    Ok(Seq::of(fold_rows(alloc, plan, rows.items())?))
}

fn fold_rows(alloc: Global, plan: &Fold, rows: &[Row]) -> Result<Vec<Group>, NoMemory>
    requires times { AreTimes rows.now }
    requires width { IsWidth plan.now.width }
    ensures { IfOk result (λ groups. groups.items ≡ groups_of plan.now rows.now) }
{
    let mut gathered = GroupTable::new(alloc);
    gathered.take_rows(alloc, plan, rows)?;
    in_order(alloc, gathered.groups.settle(alloc)?)
}
