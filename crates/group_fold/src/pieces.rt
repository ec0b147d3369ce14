//! The groups of rows that come in pieces, folded in several threads.
ghost use Rattle.std.specs.Prelude.{◌≡◌, ◌+◌, ◌-◌, ◌^◌, ◌<◌, IfOk, length, min};
ghost use Rattle.ts_schema.specs.declared.rows.Row.{Row};
ghost use Rattle.ts_bucket.specs.Bucket.{IsWidth};
ghost use Rattle.group_fold.specs.Grouping.{AreGroupsInAnyOrder, PiecesAreTimes, ShowScratch, all_rows};
ghost use Rattle.ts_model.specs.Groups.{groups_of};
ghost use denote.Param.Send.{IsSync};

use crate::group_table::GroupTable;
use crate::joins::join_lists;
use crate::orders::in_order;
use partial_agg::Group;
use rayon::{current_num_threads, join};
use std::alloc::Global;
use std::thread::Threads;
use ts_model::Fold;
use ts_schema::{NoMemory, Row, Seq, SharedSlice};

/// A number of rows that no memory can hold. Counts of rows stay below it.
pub(crate) const MOST_ROWS: u64 = 4_611_686_018_427_387_904;

/// Fewer rows than this are folded in one thread, without asking the system for the number of processors.
const FEW_ROWS: u64 = 8_192;

/// The groups of the rows of all pieces: those that `fold` returns for the pieces joined. Fails as out of
/// memory for 2^62 rows or more.
///
/// Folds fewer than 8,192 rows in the caller's thread. Otherwise halves the list of pieces, and its halves
/// again, into at most as many parts as there are processors. Folds each part in one thread, and joins the
/// groups of two halves. If a thread can't be started, the caller does its work.
pub fn fold_pieces<R: Threads + Sync>(
    rt: &R,
    alloc: Global,
    plan: &Fold,
    pieces: &Seq<SharedSlice<Row>>,
) -> Result<Seq<Group>, NoMemory>
    requires { PiecesAreTimes pieces.now }
    ensures groups { IfOk result (λ groups. groups ≡ groups_of plan.now (all_rows pieces.now)) }
    ensures scratch { IfOk result (λ groups. ShowScratch plan.now (all_rows pieces.now) groups) }
    ensures any_order { IfOk result (AreGroupsInAnyOrder plan.now (all_rows pieces.now)) }
    ensures bounds { IsWidth plan.now.width }
{
    // Reading a width tells the prover that it keeps its bounds.
    let _step = plan.width.step;
    let count = count_rows(pieces.items());
    if count >= MOST_ROWS {
        return Err(NoMemory);
    }
    let halvings = halvings_of(rt, count);
    Ok(Seq::of(fold_in_threads(rt, alloc, plan, pieces.items(), halvings)?))
}

/// The number of times that pieces with this many rows are halved.
fn halvings_of<R: Threads + Sync>(rt: &R, rows: u64) -> u32 {
    if rows < FEW_ROWS {
        return 0;
    }
    current_num_threads(rt).ilog2()
}

/// The number of rows of the pieces, at most 2^64 - 1.
fn count_rows(pieces: &[SharedSlice<Row>]) -> u64
    ensures { result ≡ min (length (all_rows pieces.now)) (2 ^ 64 - 1) }
{
    let mut count = 0u64;
    for piece in pieces {
        count = count.saturating_add(piece.len() as u64);
    }
    count
}

/// The groups of some pieces, which are halved this often before a thread folds its own pieces.
#[cycle(halves)]
fn fold_in_threads<R: Threads + Sync>(
    rt: &R,
    alloc: Global,
    plan: &Fold,
    pieces: &[SharedSlice<Row>],
    halvings: u32,
) -> Result<Vec<Group>, NoMemory>
    requires times { PiecesAreTimes pieces.now }
    requires width { IsWidth plan.now.width }
    requires few { length (all_rows pieces.now) < 2 ^ 62 }
    ensures { IfOk result (λ groups. groups.items ≡ groups_of plan.now (all_rows pieces.now)) }
{
    if halvings == 0 || pieces.len() < 2 {
        return fold_each(alloc, plan, pieces);
    }
    let (front, back) = pieces.split_at(pieces.len() / 2);
    let left = move || -> Result<Vec<Group>, NoMemory>
        requires { IsSync R.row × (0 < halvings) × PiecesAreTimes front.now
            × IsWidth plan.now.width × (length (all_rows front.now) < 2 ^ 62) }
        ensures { IfOk result (λ groups. groups.items ≡ groups_of plan.entry.now (all_rows front.entry.now)) }
    { fold_in_threads(rt, alloc, plan, front, halvings - 1) };
    let right = move || -> Result<Vec<Group>, NoMemory>
        requires { IsSync R.row × (0 < halvings) × PiecesAreTimes back.now
            × IsWidth plan.now.width × (length (all_rows back.now) < 2 ^ 62) }
        ensures { IfOk result (λ groups. groups.items ≡ groups_of plan.entry.now (all_rows back.entry.now)) }
    { fold_in_threads(rt, alloc, plan, back, halvings - 1) };
    let (mine, theirs) = join(rt, left, right);
    join_lists(alloc, mine?, theirs?)
}

/// The groups of some pieces, in one thread.
fn fold_each(
    alloc: Global,
    plan: &Fold,
    pieces: &[SharedSlice<Row>],
) -> Result<Vec<Group>, NoMemory>
    requires times { PiecesAreTimes pieces.now }
    requires width { IsWidth plan.now.width }
    requires few { length (all_rows pieces.now) < 2 ^ 62 }
    ensures { IfOk result (λ groups. groups.items ≡ groups_of plan.now (all_rows pieces.now)) }
{
    let mut gathered = GroupTable::new(alloc);
    for piece in pieces {
        gathered.take_rows(alloc, plan, piece.items())?;
    }
    in_order(alloc, gathered.groups.settle(alloc)?)
}
