//! The texts of ranges.
ghost use Rattle.std.specs.Prelude.{◌≡◌, ◌++◌, OnOk};
ghost use Rattle.result_text.specs.Spans.{span_end, span_text, start_text};

use crate::pieces::Text;
use ts_bucket::Span;
use ts_schema::NoMemory;

/// Appends a range; `min` is the start of the first bucket.
pub(crate) fn put_span(text: &mut Text, min: i64, span: Span) -> Result<(), NoMemory>
    ensures written { OnOk result (text.new.after ≡ text.old.after ++ span_text min span) }
    ensures kept { text.new.before ≡ text.old.before }
{
    put_start(text, min, span.lo)?;
    text.bytes(b"..")?;
    text.push_signed(i128::from(span.hi))
}

/// Appends a range that ends a line.
pub(crate) fn put_span_end(text: &mut Text, min: i64, span: Span) -> Result<(), NoMemory>
    ensures written { OnOk result (text.new.after ≡ text.old.after ++ span_end min span) }
    ensures kept { text.new.before ≡ text.old.before }
{
    text.bytes(b" ")?;
    put_span(text, min, span)?;
    text.bytes(b"\n")
}

/// Appends the start of a range.
fn put_start(text: &mut Text, min: i64, lo: i64) -> Result<(), NoMemory>
    ensures written { OnOk result (text.new.after ≡ text.old.after ++ start_text min lo) }
    ensures kept { text.new.before ≡ text.old.before }
{
    if lo == min {
        text.bytes(b"min")
    } else {
        text.push_signed(i128::from(lo))
    }
}
