//! The effect of a finish on its aggregate.
ghost use Rattle.std.specs.Prelude.{IfOk};
ghost use Rattle.ts_bucket.specs.WholeSpans.{IsWholeSpan};
ghost use Rattle.mat_rows.specs.Replacing.{AreSpans, SpansRise};
ghost use Rattle.engine_state.specs.Groups.{AreReplaced};
ghost use Rattle.engine_state.specs.Steps.{JobFinished};

use crate::views::ViewState;
use mat_rows::MatRows;
use refresh_build::Job;
use std::alloc::Global;
use ts_bucket::Span;
use ts_num::greater;
use ts_schema::{NoMemory, Seq};

/// The materialized groups, with those in some ranges of buckets replaced by new ones.
fn replace_ranges(old: &MatRows, ranges: &Seq<Span>, groups: &MatRows) -> Result<MatRows, NoMemory>
    requires sizes { AreSpans ranges.now }
    requires rising { SpansRise ranges.now }
    ensures { IfOk result (λ new. AreReplaced ranges.now groups.now old.now new) }
{
    let new = old.replace(ranges, groups)?;
    new.order();
    Ok(new)
}

/// An aggregate after a finish with a job, whose groups update these ranges of buckets.
pub(crate) fn finish_view(
    alloc: Global,
    view: &ViewState,
    job: &Job,
    renewed: &Seq<Span>,
) -> Result<ViewState, NoMemory>
    requires whole { IsWholeSpan view.now.log.width job.now.span }
    requires sizes { AreSpans renewed.now }
    requires rising { SpansRise renewed.now }
    ensures finished { IfOk result (JobFinished job.now renewed.now view.now) }
{
    let log = view.log().with_refresh(job.span, job.snap)?;
    let groups = replace_ranges(view.groups(), renewed, &job.groups)?;
    let mark = greater(view.mark(), job.top);
    ViewState::of(alloc, view.table(), log, groups, mark)
}
