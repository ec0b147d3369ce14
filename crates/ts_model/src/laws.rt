//! Laws of the definitions. Each law is the clause of a function that does nothing.
ghost use Rattle.std.specs.Prelude.{◌≡◌};
ghost use Rattle.ts_model.specs.Laws.{AnswersStay, CallsMakeAllowed, ChunksAreWithin, ClippingKeepsNear, CountsFit, FitsStays, InsertsKeepAll, MarksAreEnds, NothingAboveWatermark, RangesAreMaximal, RelationsStay, ResultsComeInOrder, RostersAreSound, RowsAreTimes, RowsFitTables, RowsHaveColumns, RowsStandInOrder, SoundStays, SpansKeepGroups, SumsFit, ThresholdNeverFalls, UntouchedBetween, UntouchedKeeps, UntouchedKeepsGroups, UntouchedKeepsRows, WatermarkNeverFalls, WidthsAreSound};
ghost use Rattle.ts_model.specs.Limits.{bytes_limit, most_columns, most_relations};
ghost use Rattle.ts_model.specs.PositionLaws.{AtPositions, PositionsCount};
ghost use Rattle.ts_model.specs.RefreshLaws.{BucketsWereCut, CutsFit, FinishesMark, LastsAreLast, MarksEndRows, ModePlaysNoPart, WaitingIsPending};

/// A bucket that no commit touched after a position has the rows that it had there.
pub fn untouched_buckets_keep_their_rows()
    ensures { UntouchedKeepsRows }
{}

/// A bucket that no commit touched after a position has the groups that it had there.
pub fn untouched_buckets_keep_their_groups()
    ensures { UntouchedKeepsGroups }
{}

/// A bucket that no commit touched after a position has the aggregation that it had there.
pub fn untouched_buckets_keep_their_aggregation()
    ensures { UntouchedKeeps }
{}

/// A bucket at or above the watermark that has a last refresh had no result row at that refresh's snapshot.
pub fn nothing_stood_above_the_watermark()
    ensures { NothingAboveWatermark }
{}

/// A number below the watermark of an aggregate stays below it as the history grows.
pub fn watermarks_never_fall()
    ensures { WatermarkNeverFalls }
{}

/// A number below the threshold of a table stays below it as the history grows.
pub fn thresholds_never_fall()
    ensures { ThresholdNeverFalls }
{}

/// No table, aggregate, name or kind is removed as a history grows.
pub fn names_and_kinds_stay()
    ensures { RelationsStay }
{}

/// An event whose parts exist and are in range stays so as a history grows.
pub fn sound_events_stay_sound()
    ensures { SoundStays }
{}

/// Each call of a store creates only allowed events, if its arguments are sound.
pub fn calls_make_allowed_events()
    ensures { CallsMakeAllowed }
{}

/// A job that fits a history fits every history that begins with it.
pub fn fitting_jobs_go_on_fitting()
    ensures { FitsStays }
{}

/// What a query shows at a position doesn't change when the history grows.
pub fn answers_of_snapshots_stay()
    ensures { AnswersStay }
{}

/// The ranges of an answer's stale list are maximal, rise and don't touch, and hold exactly the buckets that
/// are requested and stale.
pub fn stale_ranges_are_maximal()
    ensures { RangesAreMaximal }
{}

/// The rows of a table are in row order.
pub fn rows_stand_in_order()
    ensures { RowsStandInOrder }
{}

/// A bucket has one result row for each list of keys that occurs, in order, and an answer has each bucket once,
/// in order.
pub fn results_come_in_order()
    ensures { ResultsComeInOrder }
{}

/// The sum of fewer than 2^62 values of 64 bits fits 128 bits.
pub fn sums_fit()
    ensures { SumsFit }
{}

/// The limits of events.
pub fn limits()
    ensures relations { most_relations ≡ 64 }
    ensures columns { most_columns ≡ 16 }
    ensures bytes { bytes_limit ≡ 4294967296 }
{}

/// A position is that of the root of a history and the number of events after it.
pub fn positions_count_events()
    ensures { PositionsCount }
{}

/// The state at a position of a history is that of the history's prefix with that position.
pub fn positions_have_their_prefix()
    ensures { AtPositions }
{}

/// All that the roster of a consistent history names exists and is in range.
pub fn rosters_are_sound()
    ensures { RostersAreSound }
{}

/// The width of an aggregate of a consistent history keeps its bounds.
pub fn widths_are_sound()
    ensures { WidthsAreSound }
{}

/// Each row that was ever inserted into a table of a consistent history fits the table. So does each of its
/// rows at a position.
pub fn rows_fit_their_tables()
    ensures { RowsFitTables }
{}

/// Each row of a consistent history has a time.
pub fn rows_are_of_times()
    ensures { RowsAreTimes }
{}

/// Each row of a consistent history has the columns of each fold that may be asked of its table.
pub fn rows_have_columns()
    ensures { RowsHaveColumns }
{}

/// A watermark of a consistent history is the end of a bucket that holds a time.
pub fn marks_are_ends()
    ensures { MarksAreEnds }
{}

/// The span of a cut of a consistent history is one of whole buckets of its aggregate.
pub fn cuts_fit_their_aggregates()
    ensures { CutsFit }
{}

/// A bucket of the span of a cut was cut, and so was one with a last refresh.
pub fn refreshed_buckets_were_cut()
    ensures { BucketsWereCut }
{}

/// A bucket was refreshed at its last refresh, and at no later snapshot.
pub fn last_refreshes_are_last()
    ensures { LastsAreLast }
{}

/// For each number, the waiting refreshes are what pending says of it.
pub fn waiting_refreshes_are_pending()
    ensures { WaitingIsPending }
{}

/// A watermark is the one with which the history begins, or the end of a bucket. A finished refresh covers that
/// bucket, and it had a result row at that refresh's snapshot. So a watermark isn't simply the end of a window.
pub fn watermarks_end_rows()
    ensures { MarksEndRows }
{}

/// A finish of a job that fits raises the watermark to the job's top.
pub fn finishes_raise_the_watermark()
    ensures { FinishesMark }
{}

/// Whether an aggregate shows materialized rows only has no effect on stale buckets, or on the groups of a
/// bucket.
pub fn modes_play_no_part()
    ensures { ModePlaysNoPart }
{}

/// Rows inserted in their places are there as often as they are given, and none is lost.
pub fn inserts_keep_all_rows()
    ensures { InsertsKeepAll }
{}

/// A span clipped to bounds between which all chunks lie is near the same rows.
pub fn clipped_spans_are_near_the_same()
    ensures { ClippingKeepsNear }
{}

/// The chunks of a consistent history lie at most the longest interval outside the range of times.
pub fn chunks_are_near_times()
    ensures { ChunksAreWithin }
{}

/// Each count and each number of a sound event of a consistent history fits its field in a journal.
pub fn counts_fit_their_fields()
    ensures { CountsFit }
{}

/// A bucket that no commit touched between two positions had the same rows and groups at both.
pub fn untouched_buckets_are_the_same_at_both_positions()
    ensures { UntouchedBetween }
{}

/// The rows of spans have the groups of all rows in each bucket of the spans, and none in another.
pub fn spans_keep_groups()
    ensures { SpansKeepGroups }
{}
