//! The texts of a log and of pending refreshes.
ghost use Rattle.std.specs.Prelude.{◌≡◌, ◌++◌, codes, decimal, Some, OnErr, OnOk};
ghost use Rattle.std.specs.Fmt.{signed_decimal};
ghost use Rattle.result_text.specs.Spans.{span_text};
ghost use Rattle.ts_model.specs.Roster.{table_of, view_of};
ghost use Rattle.result_text.specs.Events.{built_text, column_text, columns_text, cut_text, event_text, history_text, hyper_text, log_text, mode_text, mode_word, pending_head, pending_text, place_text, table_text, view_text};

use crate::pieces::Text;
use crate::spans::{put_span, put_span_end};
use ts_bucket::{Span, first};
use ts_model::{Event, Hyper, Roster, TableDef, TableInfo, ViewDef};
use ts_schema::{Column, Name, NoMemory};

/// Appends the line of a log for an event: its number and its text. Omits what isn't in the roster.
pub fn put_event(
    number: u64,
    event: &Event,
    roster: &Roster,
    out: &mut Vec<u8>,
) -> Result<(), NoMemory>
    ensures appended { OnOk result (out.new.items ≡ out.old.items ++ log_text number roster.now event.now) }
    ensures kept { OnErr result (out.new.items ≡ out.old.items) }
{
    let mut text = Text::behind(out);
    let written = put_event_line(&mut text, number, event, roster);
    text.finish(written, out)
}

/// Appends the line with the position of a history.
pub fn put_history(pos: u64, out: &mut Vec<u8>) -> Result<(), NoMemory>
    ensures appended { OnOk result (out.new.items ≡ out.old.items ++ history_text pos) }
    ensures kept { OnErr result (out.new.items ≡ out.old.items) }
{
    let mut text = Text::behind(out);
    let written = put_history_line(&mut text, pos);
    text.finish(written, out)
}

/// Appends the line of a pending refresh, of the aggregate with this name; `min` is the start of its first bucket.
pub fn put_pending(
    cut: u64,
    name: &Name,
    span: Span,
    min: i64,
    out: &mut Vec<u8>,
) -> Result<(), NoMemory>
    ensures appended { OnOk result (out.new.items ≡ out.old.items ++ pending_text cut name.now span min) }
    ensures kept { OnErr result (out.new.items ≡ out.old.items) }
{
    let mut text = Text::behind(out);
    let written = put_pending_line(&mut text, cut, name, span, min);
    text.finish(written, out)
}

/// Appends the position of a history as a line.
fn put_history_line(text: &mut Text, pos: u64) -> Result<(), NoMemory>
    ensures written { OnOk result (text.new.after ≡ text.old.after ++ history_text pos) }
    ensures kept { text.new.before ≡ text.old.before }
{
    text.bytes(b"HISTORY @")?;
    text.number(pos)?;
    text.bytes(b"\n")
}

/// Appends a pending refresh as a line.
#[tactic(auto, using(crate::proofs::Appending::two_pieces))]
fn put_pending_line(
    text: &mut Text,
    cut: u64,
    name: &Name,
    span: Span,
    min: i64,
) -> Result<(), NoMemory>
    ensures written { OnOk result (text.new.after ≡ text.old.after ++ pending_text cut name.now span min) }
    ensures kept { text.new.before ≡ text.old.before }
{
    put_waiting(text, cut, name)?;
    put_span_end(text, min, span)
}

/// Appends a pending refresh: its number and the name of its aggregate.
fn put_waiting(text: &mut Text, cut: u64, name: &Name) -> Result<(), NoMemory>
    ensures written { OnOk result (text.new.after ≡ text.old.after ++ pending_head cut name.now) }
    ensures kept { text.new.before ≡ text.old.before }
{
    text.bytes(b"PENDING ")?;
    text.number(cut)?;
    text.bytes(b" ")?;
    text.bytes(name.bytes())
}

/// Appends an event as a line.
fn put_event_line(
    text: &mut Text,
    position: u64,
    event: &Event,
    roster: &Roster,
) -> Result<(), NoMemory>
    ensures written { OnOk result (text.new.after ≡ text.old.after ++ log_text position roster.now event.now) }
    ensures kept { text.new.before ≡ text.old.before }
{
    text.bytes(b"@")?;
    text.number(position)?;
    text.bytes(b" ")?;
    put_kind(text, event, roster)?;
    text.bytes(b"\n")
}

/// Appends the text of an event.
fn put_kind(text: &mut Text, event: &Event, roster: &Roster) -> Result<(), NoMemory>
    ensures written { OnOk result (text.new.after ≡ text.old.after ++ event_text roster.now event.now) }
    ensures kept { text.new.before ≡ text.old.before }
{
    match event {
        Event::Table(def) => put_table(text, def),
        Event::Hyper { table, hyper } => put_hyper(text, roster, *table, *hyper),
        Event::View(def) => put_view(text, roster, def),
        Event::Mode { view, only } => put_mode(text, roster, *view, *only),
        Event::Commit(ops) => put_commit(text, ops.len() as u64),
        Event::Cut { view, span } => put_cut(text, roster, *view, *span),
        Event::Built { cut, snap } => put_built(text, *cut, *snap),
    }
}

/// Appends that a table was created.
fn put_table(text: &mut Text, def: &TableDef) -> Result<(), NoMemory>
    ensures written { OnOk result (text.new.after ≡ text.old.after ++ table_text def.now) }
    ensures kept { text.new.before ≡ text.old.before }
{
    text.bytes(b"TABLE ")?;
    text.bytes(def.name.bytes())?;
    put_columns(text, def.cols.items())
}

/// Appends columns.
fn put_columns(text: &mut Text, columns: &[Column]) -> Result<(), NoMemory>
    ensures written { OnOk result (text.new.after ≡ text.old.after ++ columns_text columns.now) }
    ensures kept { text.new.before ≡ text.old.before }
{
    for column in columns {
        put_column(text, column)?;
    }
    Ok(())
}

/// Appends a column, with ! if it is NOT NULL.
fn put_column(text: &mut Text, column: &Column) -> Result<(), NoMemory>
    ensures written { OnOk result (text.new.after ≡ text.old.after ++ column_text column.now) }
    ensures kept { text.new.before ≡ text.old.before }
{
    text.bytes(b" ")?;
    text.bytes(column.name.bytes())?;
    text.bytes(if column.must { b"!".as_slice() } else { b"" })
}

/// Appends that a table became a hypertable.
fn put_hyper(text: &mut Text, roster: &Roster, table: u32, hyper: Hyper) -> Result<(), NoMemory>
    ensures written { OnOk result (text.new.after ≡ text.old.after ++ hyper_text hyper (table_of roster.now table)) }
    ensures kept { text.new.before ≡ text.old.before }
{
    match roster.tables.items().get(table as usize) {
        None => Ok(()),
        Some(info) => put_hyper_of(text, info, hyper),
    }
}

/// Appends that this table became a hypertable.
#[tactic(auto, using(crate::proofs::Appending::three_pieces))]
fn put_hyper_of(text: &mut Text, info: &TableInfo, hyper: Hyper) -> Result<(), NoMemory>
    ensures written { OnOk result (text.new.after ≡ text.old.after ++ hyper_text hyper (Some info.now)) }
    ensures kept { text.new.before ≡ text.old.before }
{
    put_named(text, b"HYPER ", &info.def.name)?;
    put_column_name(text, info.def.cols.items(), hyper.at)?;
    put_spaced(text, hyper.interval)
}

/// Appends a word and a name.
fn put_named(text: &mut Text, word: &[u8], name: &Name) -> Result<(), NoMemory>
    ensures written { OnOk result (text.new.after ≡ text.old.after ++ (word.now ++ name.now)) }
    ensures kept { text.new.before ≡ text.old.before }
{
    text.bytes(word)?;
    text.bytes(name.bytes())
}

/// Appends a space and a whole number.
fn put_spaced(text: &mut Text, n: i64) -> Result<(), NoMemory>
    ensures written { OnOk result (text.new.after ≡ text.old.after ++ (codes " " ++ signed_decimal n)) }
    ensures kept { text.new.before ≡ text.old.before }
{
    text.bytes(b" ")?;
    text.push_signed(i128::from(n))
}

/// Appends a space and the name of the column at a place, if it exists.
fn put_column_name(text: &mut Text, columns: &[Column], place: u32) -> Result<(), NoMemory>
    ensures written { OnOk result (text.new.after ≡ text.old.after ++ place_text columns.now place) }
    ensures kept { text.new.before ≡ text.old.before }
{
    match columns.get(place as usize) {
        None => text.bytes(b" "),
        Some(column) => put_named(text, b" ", &column.name),
    }
}

/// Appends that an aggregate was created.
fn put_view(text: &mut Text, roster: &Roster, def: &ViewDef) -> Result<(), NoMemory>
    ensures written { OnOk result (text.new.after ≡ text.old.after ++ event_text roster.now (Event.View def.now)) }
    ensures kept { text.new.before ≡ text.old.before }
{
    match roster.tables.items().get(def.table as usize) {
        None => Ok(()),
        Some(info) => put_view_of(text, def, info),
    }
}

/// Appends that an aggregate over this table was created.
#[tactic(auto, using(crate::proofs::Appending::four_pieces))]
fn put_view_of(text: &mut Text, def: &ViewDef, info: &TableInfo) -> Result<(), NoMemory>
    ensures written { OnOk result (text.new.after ≡ text.old.after ++ view_text def.now (Some info.now)) }
    ensures kept { text.new.before ≡ text.old.before }
{
    put_named(text, b"VIEW ", &def.name)?;
    put_named(text, b" ", &info.def.name)?;
    put_spaced(text, def.fold.width.step)?;
    put_spaced(text, def.fold.width.shift)
}

/// Appends that an aggregate was set to a mode.
fn put_mode(text: &mut Text, roster: &Roster, view: u32, only: bool) -> Result<(), NoMemory>
    ensures written { OnOk result (text.new.after ≡ text.old.after ++ mode_text only (view_of roster.now view)) }
    ensures kept { text.new.before ≡ text.old.before }
{
    match roster.views.items().get(view as usize) {
        None => Ok(()),
        Some(def) => put_mode_of(text, def, only),
    }
}

/// Appends that this aggregate was set to a mode.
#[tactic(auto, using(crate::proofs::Appending::two_pieces))]
fn put_mode_of(text: &mut Text, def: &ViewDef, only: bool) -> Result<(), NoMemory>
    ensures written { OnOk result (text.new.after ≡ text.old.after ++ mode_text only (Some def.now)) }
    ensures kept { text.new.before ≡ text.old.before }
{
    put_named(text, b"MODE ", &def.name)?;
    text.bytes(word_of_mode(only))
}

/// Returns the text of a mode: 1 for materialized only, or 0.
fn word_of_mode(only: bool) -> &'static [u8]
    ensures { result.now ≡ mode_word only }
{
    match only {
        true => b" 1",
        false => b" 0",
    }
}

/// Appends the number of operations that took effect.
fn put_commit(text: &mut Text, ops: u64) -> Result<(), NoMemory>
    ensures written { OnOk result (text.new.after ≡ text.old.after ++ (codes "COMMIT ops " ++ decimal ops)) }
    ensures kept { text.new.before ≡ text.old.before }
{
    text.bytes(b"COMMIT ops ")?;
    text.number(ops)
}

/// Appends that a refresh was cut.
fn put_cut(text: &mut Text, roster: &Roster, view: u32, span: Span) -> Result<(), NoMemory>
    ensures written { OnOk result (text.new.after ≡ text.old.after ++ cut_text span (view_of roster.now view)) }
    ensures kept { text.new.before ≡ text.old.before }
{
    match roster.views.items().get(view as usize) {
        None => Ok(()),
        Some(def) => put_cut_of(text, def, span),
    }
}

/// Appends that a refresh of this aggregate was cut.
#[tactic(auto, using(crate::proofs::Appending::two_pieces))]
fn put_cut_of(text: &mut Text, def: &ViewDef, span: Span) -> Result<(), NoMemory>
    ensures written { OnOk result (text.new.after ≡ text.old.after ++ cut_text span (Some def.now)) }
    ensures kept { text.new.before ≡ text.old.before }
{
    put_named(text, b"CUT ", &def.name)?;
    put_spaced_span(text, first(def.fold.width), span)
}

/// Appends a space and a range.
fn put_spaced_span(text: &mut Text, min: i64, span: Span) -> Result<(), NoMemory>
    ensures written { OnOk result (text.new.after ≡ text.old.after ++ (codes " " ++ span_text min span)) }
    ensures kept { text.new.before ≡ text.old.before }
{
    text.bytes(b" ")?;
    put_span(text, min, span)
}

/// Appends that a refresh was finished.
fn put_built(text: &mut Text, cut: u64, snap: u64) -> Result<(), NoMemory>
    ensures written { OnOk result (text.new.after ≡ text.old.after ++ built_text cut snap) }
    ensures kept { text.new.before ≡ text.old.before }
{
    text.bytes(b"BUILT ")?;
    text.number(cut)?;
    text.bytes(b" snap ")?;
    text.number(snap)
}
