//! Writing the rows of a state into the bytes of an image, span by span.
ghost use Rattle.std.specs.Prelude.{◌≡◌, ◌≤◌, ◌<◌, ◌+◌, ◌^◌, ◌++◌, ◌∷◌, ◌==◌, false, length, OnOk};
ghost use Rattle.std.specs.List.{AllByRecursion, flat_map};
ghost use Rattle.event_codec.specs.Formed.{IsRow, Many};
ghost use Rattle.event_codec.specs.Growing.{Grows};
ghost use Rattle.event_codec.specs.Spelling.{four, many, row};
ghost use Rattle.image_laws.specs.Images.{held_events};
ghost use Rattle.base_image.specs.Formed.{IsFramed};
ghost use Rattle.base_image.specs.Outlines.{commit_head, commits, span_rows, tallies, tally_of};
ghost use Rattle.base_image.specs.Spelling.{bytes_of_frame};

use crate::imaged::Imaged;
use crate::tallies::{Tally, count_held};
use event_codec::{put_four, put_items};
use ts_bucket::Span;
use ts_schema::NoMemory;

/// The byte that commits begin with.
const COMMIT_KIND: u8 = 5;

/// The byte that inserts begin with.
const INSERT_KIND: u8 = 1;

/// The number of bytes of a commit of one insert before its rows.
const HEAD: u32 = 14;

/// Appends the rows of these spans.
#[tactic(auto, using(event_codec::proofs::GrowthLaws::grows_by, event_codec::proofs::GrowthLaws::grows_not, event_codec::proofs::GrowthLaws::grows_on))]
fn put_spans<I: Imaged>(
    of: &I,
    table: u32,
    spans: &[Span],
    out: &mut Vec<u8>,
) -> Result<(), NoMemory>
    requires formed { AllByRecursion IsRow (I.held of.now table) }
    ensures put { OnOk result (out.new.items ≡ out.old.items
        ++ flat_map row (span_rows (I.held of.now table) spans.now)) }
    ensures grows { Grows out.old.items out.new.items }
{
    for span in spans {
        let rows = of.rows_in(table, *span)?;
        put_items(rows.items(), out)?;
    }
    Ok(())
}

/// Appends the rows of a table.
#[tactic(auto, using(event_codec::proofs::GrowthLaws::grows_not))]
fn put_rows<I: Imaged>(of: &I, table: u32, out: &mut Vec<u8>) -> Result<(), NoMemory>
    requires formed { AllByRecursion IsRow (I.held of.now table) }
    ensures put { OnOk result (out.new.items ≡ out.old.items ++ flat_map row (I.held of.now table)) }
    ensures grows { Grows out.old.items out.new.items }
{
    let spans = of.spans(table)?;
    put_spans(of, table, spans.items(), out)
}

/// Appends the bytes before the rows of an insert.
#[tactic(auto, using(std::proofs::lemmas::List::append_assoc, event_codec::proofs::GrowthLaws::grows_by, event_codec::proofs::GrowthLaws::grows_not, event_codec::proofs::GrowthLaws::grows_on))]
fn put_insert_head(table: u32, rows: u32, out: &mut Vec<u8>) -> Result<(), NoMemory>
    ensures put { OnOk result (out.new.items ≡ out.old.items ++ (1 ∷ (four table ++ four rows))) }
    ensures grows { Grows out.old.items out.new.items }
{
    out.push(INSERT_KIND)?;
    put_four(out, table)?;
    put_four(out, rows)
}

/// Appends the bytes before the rows of a table.
#[tactic(auto, using(std::proofs::lemmas::List::append_assoc, event_codec::proofs::GrowthLaws::grows_by, event_codec::proofs::GrowthLaws::grows_not, event_codec::proofs::GrowthLaws::grows_on))]
fn put_head(table: u32, tally: Tally, out: &mut Vec<u8>) -> Result<(), NoMemory>
    requires few_bytes { 14 + tally.bytes < 2 ^ 32 }
    requires few_rows { tally.rows < 2 ^ 32 }
    ensures put { OnOk result (out.new.items ≡ out.old.items ++ commit_head table tally) }
    ensures grows { Grows out.old.items out.new.items }
{
    put_four(out, HEAD + tally.bytes as u32)?;
    out.push(COMMIT_KIND)?;
    put_four(out, 1)?;
    put_insert_head(table, tally.rows as u32, out)
}

/// Appends the commit of the rows of a table, if there are any.
fn put_commit<I: Imaged>(
    of: &I,
    table: u32,
    tally: Tally,
    out: &mut Vec<u8>,
) -> Result<(), NoMemory>
    requires tallied { tally ≡ tally_of (I.held of.now table) }
    requires framed { AllByRecursion IsFramed (held_events table (I.held of.now table)) }
    ensures put { OnOk result (out.new.items ≡ out.old.items
        ++ flat_map bytes_of_frame (held_events table (I.held of.now table))) }
    ensures grows { Grows out.old.items out.new.items }
{
    if tally.rows == 0 {
        return Ok(());
    }
    put_head(table, tally, out)?;
    put_rows(of, table, out)
}

/// Appends the commits of the rows of tables from this number on.
fn put_each<I: Imaged>(
    of: &I,
    table: u32,
    each: &[Tally],
    out: &mut Vec<u8>,
) -> Result<(), NoMemory>
    requires few { table + length each.now ≤ 64 }
    requires tallied { each.now ≡ tallies (I.held of.now) table (length each.now) }
    requires framed { AllByRecursion IsFramed (commits (I.held of.now) table (length each.now)) }
    ensures put { OnOk result (out.new.items ≡ out.old.items
        ++ flat_map bytes_of_frame (commits (I.held of.now) table (length each.now))) }
    ensures grows { Grows out.old.items out.new.items }
{
    match each {
        [] => Ok(()),
        [tally, more @ ..] => {
            put_commit(of, table, *tally, out)?;
            put_each(of, table + 1, more, out)
        }
    }
}

/// Appends the number of tables that have rows, and the commits of these rows.
pub fn put_commits<I: Imaged>(of: &I, each: &[Tally], out: &mut Vec<u8>) -> Result<(), NoMemory>
    requires few { length each.now ≤ 64 }
    requires tallied { each.now ≡ tallies (I.held of.now) 0 (length each.now) }
    requires framed { Many IsFramed (commits (I.held of.now) 0 (length each.now)) }
    ensures put { OnOk result (out.new.items ≡ out.old.items
        ++ many bytes_of_frame (commits (I.held of.now) 0 (length each.now))) }
    ensures grows { Grows out.old.items out.new.items }
{
    put_four(out, count_held(each) as u32)?;
    put_each(of, 0, each, out)
}
