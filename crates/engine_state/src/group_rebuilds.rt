//! The groups of the aggregates of an image, recomputed from its rows. The rows of a table are read once for
//! all aggregates over it.
ghost use Rattle.std.specs.Prelude.{◌≡◌, [], ◌∷◌, cond, length, true, IfOk, OnOk, Some};
ghost use Rattle.std.specs.List.{AllByRecursion, AllZip, list_all, list_any};
ghost use Rattle.base_image.specs.Held.{is_timed, op_timed};
ghost use Rattle.ts_schema.specs.Counts.{Ticks, raised_by};
ghost use Rattle.ts_model.specs.Saved.{appended_by, appended_over};
ghost use Rattle.ts_model.specs.Valid.{image_roster, valid};
ghost use Rattle.group_fold.specs.Grouping.{AreTimes};
ghost use Rattle.engine_state.specs.Lists.{Each};
ghost use Rattle.engine_state.specs.GroupRebuilds.{AreRefolded, AreRefolds, CanTake, IsRefoldOf, Makes, TakesBy, event_reads, events_read, is_over, op_reads, rows_of, rows_refolded};

use group_fold::FoldBuilder;
use mat_rows::MatRows;
use std::alloc::Global;
use std::collections::VecDeque;
use ts_model::{Event, Fold, Image, Op, Roster, SavedView, ViewDef};
use ts_schema::{NoMemory, Row, Seq, Steps};

/// The number of rows that each aggregate adds before the next rows are read.
const PIECE: usize = 1024;

/// The groups of a refreshed aggregate, under construction.
#[derive(Drop)]
struct GroupRebuild {
    /// The number of its table.
    table: u32,
    plan: Fold,
    folding: FoldBuilder,
}

impl GroupRebuild {
    /// Adds rows of a table, if it is the table of the aggregate.
    fn take(&mut self, alloc: Global, table: u32, rows: &[Row]) -> Result<(), NoMemory>
        requires times { AreTimes rows.now }
        requires before { CanTake (Some self.old) }
        ensures { OnOk result (TakesBy (rows_of table rows.now) (Some self.old) (Some self.new)) }
    {
        if self.table != table {
            return Ok(());
        }
        self.folding.take(alloc, &self.plan, rows)
    }
}

/// Begins the groups of an aggregate, if it was refreshed.
fn begin_refold(
    alloc: Global,
    def: &ViewDef,
    kept: &SavedView,
) -> Result<Option<GroupRebuild>, NoMemory>
    ensures { IfOk result (IsRefoldOf (λ t. []) def.now kept.now) }
{
    if kept.lasts.is_empty() {
        return Ok(None);
    }
    Ok(Some(GroupRebuild {
        table: def.table,
        plan: def.fold.copy()?,
        folding: FoldBuilder::new(alloc),
    }))
}

/// The same for each aggregate of an image.
fn begin_all(
    alloc: Global,
    roster: &Roster,
    image: &Image,
) -> Result<Vec<Option<GroupRebuild>>, NoMemory>
    requires valid { valid image.now ≡ true }
    requires roster { roster.now ≡ image_roster image.now }
    ensures { IfOk result (λ begun. Each (AreRefolds image.now (λ t. [])) roster.now.views begun.items) }
{
    let mut made = Vec::new(alloc);
    for view in 0..roster.views.len() {
        let def = roster.views.get(view);
        let kept = image.views.get(view);
        made.push(begin_refold(alloc, def, kept)?)?;
    }
    Ok(made)
}

/// Adds rows of a table to the groups under construction, if there are any.
fn take_if(
    alloc: Global,
    refold: &mut Option<GroupRebuild>,
    table: u32,
    rows: &[Row],
) -> Result<(), NoMemory>
    requires times { AreTimes rows.now }
    requires before { CanTake refold.old }
    ensures { OnOk result (TakesBy (rows_of table rows.now) refold.old refold.new) }
{
    match refold {
        None => Ok(()),
        Some(refold) => refold.take(alloc, table, rows),
    }
}

/// Adds rows of a table to each aggregate.
fn take_each(
    alloc: Global,
    refolds: &mut [Option<GroupRebuild>],
    table: u32,
    rows: &[Row],
) -> Result<(), NoMemory>
    requires times { AreTimes rows.now }
    requires before { AllByRecursion CanTake refolds.old }
    ensures { OnOk result (AllZip (TakesBy (rows_of table rows.now)) refolds.old refolds.new) }
{
    match refolds.split_first_mut() {
        None => Ok(()),
        Some((refold, rest)) => {
            take_if(alloc, refold, table, rows)?;
            take_each(alloc, rest, table, rows)
        }
    }
}

/// Counts a step for each row.
fn count<L>(rows: &[Row], steps: &mut Steps<L>)
    ensures { steps.new ≡ raised_by (length rows.now) steps.old }
{
    let mut left = rows;
    while let [_row, rest @ ..] = left {
        steps.tick();
        left = rest;
    }
    let _so_far = steps.count();
}

/// Reads the rows of a table, piece by piece, and adds each piece to each aggregate.
fn take_rows<L>(
    alloc: Global,
    refolds: &mut [Option<GroupRebuild>],
    table: u32,
    rows: &[Row],
    steps: &mut Steps<L>,
) -> Result<(), NoMemory>
    requires times { AreTimes rows.now }
    requires before { AllByRecursion CanTake refolds.old }
    ensures taken { OnOk result (AllZip (TakesBy (rows_of table rows.now)) refolds.old refolds.new) }
    ensures read { Ticks result (length rows.now) steps.old steps.new }
{
    let _so_far = steps.count();
    let mut left = rows;
    'pieces: while !left.is_empty() {
        let (piece, rest) = left.split_at(left.len().min(PIECE));
        count(piece, steps);
        take_each(alloc, refolds, table, piece)?;
        left = rest;
    }
    Ok(())
}

/// Whether one of these is of an aggregate over a table.
fn are_over(refolds: &[Option<GroupRebuild>], table: u32) -> bool
    ensures { result ≡ list_any (is_over table) refolds.now }
{
    for refold in refolds {
        if is_over(refold, table) {
            return true;
        }
    }
    false
}

fn is_over(refold: &Option<GroupRebuild>, table: u32) -> bool
    ensures { result ≡ is_over table refold.now }
{
    match refold {
        None => false,
        Some(refold) => table == refold.table,
    }
}

/// Reads rows of a table, if a refreshed aggregate is over it.
fn take_insert<L>(
    alloc: Global,
    refolds: &mut [Option<GroupRebuild>],
    table: u32,
    rows: &[Row],
    steps: &mut Steps<L>,
) -> Result<(), NoMemory>
    requires times { AreTimes rows.now }
    requires before { AllByRecursion CanTake refolds.old }
    ensures taken { OnOk result (AllZip (TakesBy (rows_of table rows.now)) refolds.old refolds.new) }
    ensures read { Ticks result (cond (list_any (is_over table) refolds.old) (length rows.now) 0) steps.old steps.new }
{
    let _so_far = steps.count();
    if are_over(refolds, table) {
        return take_rows(alloc, refolds, table, rows, steps);
    }
    Ok(())
}

/// Reads the rows that an operation inserts, if a refreshed aggregate is over their table.
fn take_op<L>(
    alloc: Global,
    refolds: &mut [Option<GroupRebuild>],
    op: &Op,
    steps: &mut Steps<L>,
) -> Result<(), NoMemory>
    requires timed { op_timed op.now ≡ true }
    requires before { AllByRecursion CanTake refolds.old }
    ensures taken { OnOk result (AllZip (TakesBy (λ t. appended_by t op.now)) refolds.old refolds.new) }
    ensures read { Ticks result (op_reads (λ t. list_any (is_over t) refolds.old) op.now) steps.old steps.new }
{
    let _so_far = steps.count();
    match op {
        Op::Insert { table, rows } => take_insert(alloc, refolds, *table, rows.items(), steps),
        Op::Delete { .. } => Ok(()),
    }
}

/// The same for the one operation of a commit.
fn take_event<L>(
    alloc: Global,
    refolds: &mut [Option<GroupRebuild>],
    event: &Event,
    steps: &mut Steps<L>,
) -> Result<(), NoMemory>
    requires timed { is_timed event.now ≡ true }
    requires before { AllByRecursion CanTake refolds.old }
    ensures taken { OnOk result (AllZip (TakesBy (λ t. appended_over t (event.now ∷ []))) refolds.old refolds.new) }
    ensures read { Ticks result (event_reads (λ t. list_any (is_over t) refolds.old) event.now) steps.old steps.new }
{
    let _so_far = steps.count();
    match event {
        Event::Commit(ops) => match ops.items() {
            [op] => take_op(alloc, refolds, op, steps),
            _ => Ok(()),
        },
        Event::Table(_) => Ok(()),
        Event::Hyper { .. } => Ok(()),
        Event::View(_) => Ok(()),
        Event::Mode { .. } => Ok(()),
        Event::Cut { .. } => Ok(()),
        Event::Built { .. } => Ok(()),
    }
}

/// The same for all commits of an image.
fn take_events<L>(
    alloc: Global,
    refolds: &mut [Option<GroupRebuild>],
    events: &[Event],
    steps: &mut Steps<L>,
) -> Result<(), NoMemory>
    requires timed { list_all is_timed events.now ≡ true }
    requires before { AllByRecursion CanTake refolds.old }
    ensures taken { OnOk result (AllZip (TakesBy (λ t. appended_over t events.now)) refolds.old refolds.new) }
    ensures read { Ticks result (events_read (λ t. list_any (is_over t) refolds.old) events.now) steps.old steps.new }
{
    let _so_far = steps.count();
    match events {
        [] => Ok(()),
        [event, more @ ..] => {
            take_event(alloc, refolds, event, steps)?;
            take_events(alloc, refolds, more, steps)
        }
    }
}

/// The groups of an aggregate, if it was refreshed.
fn finish_refold(alloc: Global, refold: Option<GroupRebuild>) -> Result<MatRows, NoMemory>
    requires before { CanTake refold }
    ensures { IfOk result (Makes refold) }
{
    match refold {
        None => Ok(MatRows::new(alloc)),
        Some(refold) => {
            // Reading a width tells the prover that it keeps its bounds.
            let _step = refold.plan.width.step;
            MatRows::of(alloc, refold.folding.finish(alloc)?)
        }
    }
}

/// The same for each aggregate.
fn finish_all(alloc: Global, refolds: Vec<Option<GroupRebuild>>) -> Result<Seq<MatRows>, NoMemory>
    requires before { AllByRecursion CanTake refolds.items }
    ensures { IfOk result (AllZip Makes refolds.items) }
{
    let mut made = Seq::new(alloc);
    let mut left = VecDeque::from(refolds);
    while let Some(refold) = left.pop_front() {
        made.push(finish_refold(alloc, refold)?)?;
    }
    Ok(made)
}

/// For each refreshed aggregate of an image, the groups of all rows of its table. Counts one step for each row
/// of a table with such an aggregate over it.
pub(crate) fn refold_all<L>(
    alloc: Global,
    roster: &Roster,
    image: &Image,
    steps: &mut Steps<L>,
) -> Result<Seq<MatRows>, NoMemory>
    requires valid { valid image.now ≡ true }
    requires roster { roster.now ≡ image_roster image.now }
    ensures groups { IfOk result (Each (AreRefolded image.now) roster.now.views) }
    ensures read { Ticks result (rows_refolded image.now) steps.old steps.new }
{
    let _so_far = steps.count();
    let mut refolds = begin_all(alloc, roster, image)?;
    take_events(alloc, refolds.as_mut_slice(), image.rows.items(), steps)?;
    finish_all(alloc, refolds)
}
