//! The summary of a demonstration.
ghost use Rattle.std.specs.Prelude.{◌≡◌, ◌++◌, codes, decimal, OnErr, OnOk};
ghost use Rattle.std.specs.Fmt.{signed_decimal};
ghost use Rattle.result_text.specs.Summaries.{count_line, counts_text, results_text, summary_text, total_line};

use crate::answers::put_stale;
use crate::pieces::Text;
use ts_bucket::Span;
use ts_schema::{NoMemory, Seq};

/// The results of a demonstration.
#[derive(Drop, Debug)]
pub struct Summary {
    /// Its number.
    pub number: u64,
    /// The number of events.
    pub events: u64,
    /// The number of rows inserted, less those deleted.
    pub rows: u64,
    /// The number of rows of the last answer.
    pub groups: u64,
    /// The sum of the last column of that answer.
    pub total: i128,
    /// The stale ranges of that answer.
    pub stale: Seq<Span>,
    /// The start of the first bucket; a range that begins there is printed with `min`.
    pub min: i64,
    /// The number of stored rows that were read.
    pub reads: u64,
}

/// Appends a summary, a line for each of its numbers and for each stale range.
pub fn put_summary(summary: &Summary, out: &mut Vec<u8>) -> Result<(), NoMemory>
    ensures appended { OnOk result (out.new.items ≡ out.old.items ++ summary_text summary.now) }
    ensures kept { OnErr result (out.new.items ≡ out.old.items) }
{
    let mut text = Text::behind(out);
    let written = put_summary_lines(&mut text, summary);
    text.finish(written, out)
}

/// Appends a summary as lines.
#[tactic(auto, using(crate::proofs::Appending::two_pieces))]
fn put_summary_lines(text: &mut Text, summary: &Summary) -> Result<(), NoMemory>
    ensures written { OnOk result (text.new.after ≡ text.old.after ++ summary_text summary.now) }
    ensures kept { text.new.before ≡ text.old.before }
{
    put_counts(text, summary)?;
    put_results(text, summary)
}

/// Appends the number, the events, the rows and the groups.
#[tactic(auto, using(crate::proofs::Appending::four_pieces))]
fn put_counts(text: &mut Text, summary: &Summary) -> Result<(), NoMemory>
    ensures written { OnOk result (text.new.after ≡ text.old.after ++ counts_text summary.now) }
    ensures kept { text.new.before ≡ text.old.before }
{
    put_count(text, b"DEMO ", summary.number)?;
    put_count(text, b"events ", summary.events)?;
    put_count(text, b"rows ", summary.rows)?;
    put_count(text, b"groups ", summary.groups)
}

/// Appends the total, the stale ranges and the reads.
#[tactic(auto, using(crate::proofs::Appending::three_pieces))]
fn put_results(text: &mut Text, summary: &Summary) -> Result<(), NoMemory>
    ensures written { OnOk result (text.new.after ≡ text.old.after ++ results_text summary.now) }
    ensures kept { text.new.before ≡ text.old.before }
{
    put_total(text, summary.total)?;
    put_stale(text, summary.min, summary.stale.items())?;
    put_count(text, b"reads ", summary.reads)
}

/// Appends a line of a word and a number.
#[tactic(auto, unfolding(crate::specs::Summaries::count_line))]
fn put_count(text: &mut Text, word: &[u8], count: u64) -> Result<(), NoMemory>
    ensures written { OnOk result (text.new.after ≡ text.old.after ++ count_line word.now count) }
    ensures kept { text.new.before ≡ text.old.before }
{
    text.bytes(word)?;
    text.number(count)?;
    text.bytes(b"\n")
}

/// Appends the line of the total.
#[tactic(auto, unfolding(crate::specs::Summaries::total_line))]
fn put_total(text: &mut Text, total: i128) -> Result<(), NoMemory>
    ensures written { OnOk result (text.new.after ≡ text.old.after ++ total_line total) }
    ensures kept { text.new.before ≡ text.old.before }
{
    text.bytes(b"total ")?;
    text.push_signed(total)?;
    text.bytes(b"\n")
}
