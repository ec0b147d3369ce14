//! Laws of replies. Each is the clause of a function that does nothing.
ghost use Rattle.answer_laws.specs.Laws.{AggregatesReply, BucketsShow, CalendarsReply, RollUpsReply};

use cal_bucket::laws::names_are_of_buckets;

/// States the law that the answer to a query of an aggregate is what the aggregate shows.
pub fn aggregates_reply()
    ensures { AggregatesReply }
{}

/// States the law of the buckets that a query of an aggregate asks for. A bucket that was refreshed and that no commit
/// touched since shows the aggregation from scratch. So does one at or above the watermark of a real-time aggregate.
/// Any other one below the watermark shows what its last refresh left, or no row, and is named stale. Nothing else is
/// shown.
pub fn buckets_show()
    ensures { BucketsShow }
{}

/// States the law of roll-ups. The reply shows the composed fold of the table's rows in each wider bucket that it
/// doesn't name stale and shows whole.
pub fn roll_ups_reply()
    ensures { RollUpsReply }
{}

/// States the law of queries by calendar buckets. The reply shows the rows of the table grouped by the buckets. It
/// names each row by the bucket of the time of one of its rows.
pub fn calendars_reply()
    ensures { CalendarsReply }
{
    names_are_of_buckets();
}
