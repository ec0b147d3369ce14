//! The cut.

ghost use Rattle.std.specs.Prelude.{◌≡◌, [], IfOk};
ghost use Rattle.std.specs.Int.{int_max};
ghost use Rattle.std.specs.List.{All};
ghost use Rattle.mat_log.specs.Feeding.{AreWithin};
ghost use Rattle.refresh_cut.specs.Cuts.{AreFed};

use block_list::BlockList;
use inval_log::{Entry, InvalLog};
use mat_log::MatLog;
use std::alloc::Global;
use ts_schema::{NoMemory, Seq};

/// The log of a table and the logs of its aggregates after a cut.
#[derive(Drop, Debug)]
pub struct CutParts {
    pub log: InvalLog,
    pub mats: Seq<MatLog>,
}

/// The logs of aggregates after the entries were fed to each.
fn fed_logs(
    alloc: Global,
    mats: &[MatLog],
    entries: &BlockList<Entry>,
) -> Result<Seq<MatLog>, NoMemory>
    requires { All (AreWithin entries.now.items) mats.now }
    ensures fed { IfOk result (AreFed entries.now.items mats.now) }
{
    let mut all = Vec::new(alloc);
    for mat in mats {
        all.push(mat.feed_all(entries)?)?;
    }
    Ok(Seq::of(all))
}

/// An empty log whose threshold is that of a log, or `hi` if that is higher.
fn empty_log(alloc: Global, log: &InvalLog, hi: i64) -> InvalLog
    ensures threshold { result.threshold ≡ int_max log.now.threshold hi }
    ensures entries { result.entries ≡ [] }
{
    let mut emptied = InvalLog::new(alloc);
    emptied.raise(log.threshold().max(hi));
    emptied
}

/// Cuts a span that ends at `hi`. Raises the threshold of the table's log to `hi`, if that is higher. Empties
/// the log, and feeds every entry to the logs of all aggregates of the table. If the positions of the entries
/// rise, the cost grows with the entries and the pieces of the aggregates.
pub fn cut(alloc: Global, log: &InvalLog, mats: &Seq<MatLog>, hi: i64) -> Result<CutParts, NoMemory>
    requires { All (AreWithin log.now.entries) mats.now }
    ensures threshold { IfOk result (λ parts. parts.log.threshold ≡ int_max log.now.threshold hi) }
    ensures emptied { IfOk result (λ parts. parts.log.entries ≡ []) }
    ensures fed { IfOk result (λ parts. AreFed log.now.entries mats.now parts.mats) }
{
    let mats = fed_logs(alloc, mats.items(), log.entries())?;
    Ok(CutParts {
        log: empty_log(alloc, log, hi),
        mats,
    })
}
