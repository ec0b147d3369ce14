//! The effect of a cut on all aggregates: the entries of the table's log are fed to those over the table.
ghost use Rattle.std.specs.Prelude.{◌≡◌, ◌==◌, IfOk};
ghost use Rattle.std.specs.List.{AllByRecursion};
ghost use Rattle.mat_log.specs.Feeding.{AreWithin};
ghost use Rattle.engine_state.specs.Lists.{Each};
ghost use Rattle.engine_state.specs.Steps.{FedAt, FedIf, TakesIf, ViewFed};

use crate::tables::TableState;
use crate::views::ViewState;
use std::alloc::Global;
use ts_schema::{NoMemory, Seq};

/// An aggregate over a table after the entries of the table's log were fed to it.
fn feed_view(alloc: Global, view: &ViewState, table: &TableState) -> Result<ViewState, NoMemory>
    requires { AreWithin table.now.log.entries view.now.log }
    ensures fed { IfOk result (λ new. ViewFed table.now view.now new) }
{
    view.with_entries(alloc, table.log().entries())
}

/// An aggregate after a cut of the table with this number.
fn feed_if(
    alloc: Global,
    view: &ViewState,
    number: u32,
    table: &TableState,
) -> Result<ViewState, NoMemory>
    requires { TakesIf (view.now.table == number) table.now view.now }
    ensures fed { IfOk result (λ new. FedIf (view.now.table == number) table.now view.now new) }
{
    if view.table() == number {
        feed_view(alloc, view, table)
    } else {
        view.copy()
    }
}

/// All aggregates after a cut of the table with this number.
pub(crate) fn feed_all(
    alloc: Global,
    views: &[ViewState],
    number: u32,
    table: &TableState,
) -> Result<Seq<ViewState>, NoMemory>
    requires { AllByRecursion (λ view. TakesIf (view.table == number) table.now view) views.now }
    ensures fed { IfOk result (λ news. Each (FedAt number table.now) views.now news) }
{
    let mut after = Seq::new(alloc);
    for view in views {
        after.push(feed_if(alloc, view, number, table)?)?;
    }
    Ok(after)
}
