//! Laws of whole histories, which are any lists of consistent events. Each law is the clause of a function that
//! does nothing.
ghost use Rattle.coverage.specs.Laws.{AllBucketsAre, HistoriesCovered, HistoriesTell, HullsAreOfTimes, ThresholdsAre, ThresholdsReach};

/// The notes of each aggregate of a consistent history cover it, however many refreshes overlap.
pub fn histories_are_covered()
    ensures { HistoriesCovered }
{}

/// However many refreshes overlap, exactly the buckets touched after their last refresh, or never
/// refreshed, are pending.
pub fn histories_tell_what_is_pending()
    ensures { HistoriesTell }
{}

/// The noted threshold is that of the table.
pub fn noted_thresholds_are_those_of_tables()
    ensures { ThresholdsAre }
{}

/// The threshold is at or above the end of each span that was cut of any aggregate over the table.
pub fn thresholds_reach_each_cut()
    ensures { ThresholdsReach }
{}

/// Creating an aggregate marks exactly the buckets from the first one on that end at or below the greatest
/// number of 64 bits.
pub fn all_buckets_are_marked()
    ensures { AllBucketsAre }
{}

/// The hull of a consistent commit goes from a time to a time.
pub fn hulls_are_of_times()
    ensures { HullsAreOfTimes }
{}
