//! The texts of lines.
ghost use Rattle.std.specs.Prelude.{◌≡◌, ◌++◌, ◌<◌, ◌-ℤ◌, pos, OnOk};
ghost use Rattle.std.specs.String.{string_bytes};
ghost use Rattle.demo_script.specs.Demo.{aggregate_line, answer_line, hypertable_line, insert_line, late_line, range_text, refresh_line, table_line};
ghost use Rattle.demo_script.specs.Lines.{text_of, IsInRound};

use crate::lines::Line;
use crate::rows::{put_rows, put_values};
use ts_schema::NoMemory;

/// How many rows a line inserts.
const ROWS_OF_PART: u32 = 100;

/// How much later the rows of a round are than those of the round before.
const TIMES_OF_ROUND: u32 = 5000;

/// Appends a line, without its line feed.
pub(crate) fn put_line(demo: u32, line: Line, out: &mut String) -> Result<(), NoMemory>
    requires { IsInRound line }
    ensures { OnOk result (string_bytes out.new ≡ string_bytes out.old ++ text_of demo line) }
{
    match line {
        Line::Table => put_table(out),
        Line::Hypertable => put_hypertable(out),
        Line::Aggregate => put_aggregate(out),
        Line::Insert { round, part } => put_insert(demo, round, part, out),
        Line::Refresh { round } => put_refresh(round, out),
        Line::Answer => put_answer(out),
        Line::LateRow => put_late_row(demo, out),
    }
}

/// Appends the line that creates the table.
#[tactic(auto, unfolding(crate::specs::Demo::table_line))]
fn put_table(out: &mut String) -> Result<(), NoMemory>
    ensures { OnOk result (string_bytes out.new ≡ string_bytes out.old ++ table_line) }
{
    out.push_str("d: CREATE TABLE m (time BIGINT NOT NULL, dev BIGINT, val BIGINT)")?;
    Ok(())
}

/// Appends the line that makes it a hypertable.
#[tactic(auto, unfolding(crate::specs::Demo::hypertable_line))]
fn put_hypertable(out: &mut String) -> Result<(), NoMemory>
    ensures { OnOk result (string_bytes out.new ≡ string_bytes out.old ++ hypertable_line) }
{
    out.push_str("d: SELECT create_hypertable('m', 'time', chunk_time_interval => 5000)")?;
    Ok(())
}

/// Appends the line that creates the aggregate.
#[tactic(auto, unfolding(crate::specs::Demo::aggregate_line))]
fn put_aggregate(out: &mut String) -> Result<(), NoMemory>
    ensures { OnOk result (string_bytes out.new ≡ string_bytes out.old ++ aggregate_line) }
{
    out.push_str(
        "d: CREATE MATERIALIZED VIEW m100 WITH (timescaledb.continuous, timescaledb.materialized_only = false) \
         AS SELECT time_bucket(100, time) AS bucket, dev, count(*), sum(val) FROM m \
         GROUP BY bucket, dev WITH NO DATA",
    )?;
    Ok(())
}

/// Appends the line that inserts a part of a round's rows.
#[tactic(auto, unfolding(crate::specs::Demo::insert_line))]
fn put_insert(demo: u32, round: u32, part: u32, out: &mut String) -> Result<(), NoMemory>
    requires round { round < 40 }
    requires part { part < 5 }
    ensures { OnOk result (string_bytes out.new ≡ string_bytes out.old ++ insert_line demo round part) }
{
    out.push_str("d: INSERT INTO m VALUES ")?;
    put_rows(demo, round, ROWS_OF_PART * part, ROWS_OF_PART, out)
}

/// Appends the line that refreshes the aggregate over the times of the round before.
#[tactic(auto, unfolding(crate::specs::Demo::refresh_line))]
fn put_refresh(round: u32, out: &mut String) -> Result<(), NoMemory>
    requires { round < 40 }
    ensures { OnOk result (string_bytes out.new ≡ string_bytes out.old ++ refresh_line round) }
{
    let end = TIMES_OF_ROUND * round;
    out.push_str("d: CALL refresh_continuous_aggregate('m100', ")?;
    put_range(start_of_round_before(end), end, out)
}

/// Appends a range of times, and a closing parenthesis.
fn put_range(start: i64, end: u32, out: &mut String) -> Result<(), NoMemory>
    ensures { OnOk result (string_bytes out.new ≡ string_bytes out.old ++ range_text start end) }
{
    write!(out, "{start}, {end})")?;
    Ok(())
}

/// The first time of the round whose times end here.
fn start_of_round_before(end: u32) -> i64
    ensures { result ≡ (pos end -ℤ pos 5000) }
{
    i64::from(end) - i64::from(TIMES_OF_ROUND)
}

/// Appends the line that queries the aggregate.
#[tactic(auto, unfolding(crate::specs::Demo::answer_line))]
fn put_answer(out: &mut String) -> Result<(), NoMemory>
    ensures { OnOk result (string_bytes out.new ≡ string_bytes out.old ++ answer_line) }
{
    out.push_str("d: SELECT * FROM m100")?;
    Ok(())
}

/// Appends the line that inserts a row at a time that was already refreshed.
#[tactic(auto, unfolding(crate::specs::Demo::late_line))]
fn put_late_row(demo: u32, out: &mut String) -> Result<(), NoMemory>
    ensures { OnOk result (string_bytes out.new ≡ string_bytes out.old ++ late_line demo) }
{
    out.push_str("d: INSERT INTO m VALUES ")?;
    put_values(1000, 0, u64::from(demo % 1000), out)
}
