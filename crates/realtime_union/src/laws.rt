//! Laws of answers and of reads. Each law is the clause of a function that does nothing.
ghost use Rattle.realtime_union.specs.Laws.{AllTimesReadAll, LiveReadsAreOfBuckets, UnionsAreOfBuckets};

/// The answer of an aggregate consists of its answers for each requested bucket, in order.
pub fn unions_are_of_buckets()
    ensures { UnionsAreOfBuckets }
{}

/// The rows in chunks that meet the live span are those in chunks that meet a live bucket.
pub fn live_reads_are_of_buckets()
    ensures { LiveReadsAreOfBuckets }
{}

/// A scan of all times reads all stored rows.
pub fn all_times_read_all()
    ensures { AllTimesReadAll }
{}
