//! Laws of groups. Each law is the clause of a function that does nothing.
ghost use Rattle.group_fold.specs.Laws.{GroupsOfAsked, GroupsOfOneBucket, GroupsOfSomeBuckets, GroupsOfSpans, LastGroupEnds, OrderPlaysNoPart, SpansKeepGroups};

/// Rows that are the same when sorted have the same groups.
pub fn order_plays_no_part()
    ensures { OrderPlaysNoPart }
{}

/// The groups of some buckets are those of the rows of these buckets.
pub fn groups_of_some_buckets()
    ensures { GroupsOfSomeBuckets }
{}

/// The groups that start in some spans are those of the rows of the spans.
pub fn groups_of_spans()
    ensures { GroupsOfSpans }
{}

/// The groups that start at a bucket are those of the bucket.
pub fn groups_of_one_bucket()
    ensures { GroupsOfOneBucket }
{}

/// Over the rows of some spans, a bucket in the spans has the groups that it has over all rows, and any other
/// bucket has none.
pub fn spans_keep_groups()
    ensures { SpansKeepGroups }
{}

/// The groups of the requested buckets are the groups that start at such a bucket.
pub fn groups_of_asked()
    ensures { GroupsOfAsked }
{}

/// The end of the last group is the greatest end of a bucket with a row.
pub fn last_group_ends()
    ensures { LastGroupEnds }
{}
