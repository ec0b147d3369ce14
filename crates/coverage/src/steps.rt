//! One law for each kind of event: notes that covered an aggregate cover it after the event. Each law is the
//! clause of a function that does nothing.
ghost use Rattle.coverage.specs.Laws.{BeginningsCover, CommitsKeep, CoveredTells, CoveredTellsFed, CutsKeep, EventsKeep, FeedsKeep, FeedsTell, FinishesClear, FinishesKeep, ModesKeep, QuietKeeps, SameCover};

/// A commit that logs its hull, if that begins below the threshold, keeps coverage.
pub fn commits_keep_coverage()
    ensures { CommitsKeep }
{}

/// A cut that raises the threshold, empties the log and feeds its entries keeps coverage.
pub fn cuts_keep_coverage()
    ensures { CutsKeep }
{}

/// A finish that settles the span of its cut keeps coverage.
pub fn finishes_keep_coverage()
    ensures { FinishesKeep }
{}

/// An event that changes no note of the aggregate keeps coverage.
pub fn quiet_events_keep_coverage()
    ensures { QuietKeeps }
{}

/// The notes of a new aggregate cover it.
pub fn beginnings_cover()
    ensures { BeginningsCover }
{}

/// Each consistent event keeps coverage.
pub fn events_keep_coverage()
    ensures { EventsKeep }
{}

/// Notes that say the same of each bucket cover the same.
pub fn same_notes_cover_the_same()
    ensures { SameCover }
{}

/// Notes that cover an aggregate say exactly what is pending: the buckets touched after their last refresh,
/// and those never refreshed.
pub fn covering_notes_tell_what_is_pending()
    ensures { CoveredTells }
{}

/// After a finish nothing is pending in its span up to its snapshot, whichever refreshes were finished
/// before it.
pub fn finishes_clear_up_to_their_snapshot()
    ensures { FinishesClear }
{}

/// Feeding all that is logged keeps coverage.
pub fn feeds_keep_coverage()
    ensures { FeedsKeep }
{}

/// Whether an aggregate shows materialized rows only has no effect on coverage.
pub fn modes_keep_coverage()
    ensures { ModesKeep }
{}

/// Something is pending after all that is logged was fed if and only if something was pending, or a noted hull
/// meets the bucket after its last refresh.
pub fn feeds_tell_what_is_noted()
    ensures { FeedsTell }
{}

/// Notes that cover an aggregate say exactly what is stale after all that is logged was fed.
pub fn covering_notes_tell_what_is_fed()
    ensures { CoveredTellsFed }
{}
