//! Buckets of time: widths, spans and hulls, the bucket of a time, the whole buckets of a window and of a span,
//! and the chunk of a time. Nothing allocates memory.
#![tactic(auto)]

mod buckets;
mod chunks;
mod spans;
mod times;
mod whole_spans;
mod widths;
mod windows;

pub use buckets::{MOST_STEP, bucket, first, step_law, width};
pub use chunks::chunk_start;
pub use spans::{Hull, Span};
pub use times::{MAX_TIME, MIN_TIME, times_law};
pub use whole_spans::{all_buckets, buckets_in, span_touched};
pub use widths::Width;
pub use windows::{inscribe, meets};
