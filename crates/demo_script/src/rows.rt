//! The rows that the script inserts.
ghost use Rattle.std.specs.Prelude.{◌≡◌, ◌++◌, ◌+◌, ◌<◌, OnOk};
ghost use Rattle.std.specs.String.{string_bytes};
ghost use Rattle.demo_script.specs.Demo.{row_text, rows_text, time_of, value_of, values_text};

use ts_schema::NoMemory;

/// How many rows a round inserts.
const ROWS_OF_ROUND: u32 = 500;

/// Appends consecutive rows of a round, separated by a comma and a space.
#[tactic(auto, using(crate::proofs::RowLaws::first_row, crate::proofs::RowLaws::next_row))]
pub(crate) fn put_rows(
    demo: u32,
    round: u32,
    first: u32,
    count: u32,
    out: &mut String,
) -> Result<(), NoMemory>
    requires round { round < 40 }
    requires some { 0 < count }
    requires places { first + count < 1000 }
    ensures { OnOk result (string_bytes out.new ≡ string_bytes out.old ++ rows_text demo round first count) }
{
    put_row(demo, round, first, out)?;
    for place in first + 1..first + count {
        out.push_str(", ")?;
        put_row(demo, round, place, out)?;
    }
    Ok(())
}

/// Appends the row at a place of a round.
#[tactic(auto, unfolding(crate::specs::Demo::row_text))]
fn put_row(demo: u32, round: u32, place: u32, out: &mut String) -> Result<(), NoMemory>
    requires round { round < 40 }
    requires place { place < 1000 }
    ensures { OnOk result (string_bytes out.new ≡ string_bytes out.old ++ row_text demo round place) }
{
    let number = ROWS_OF_ROUND * round + place;
    put_values(
        time_of(number, place),
        number % 8,
        value_of(demo, number),
        out,
    )
}

/// Appends a row: its time, its device and its value.
pub(crate) fn put_values(
    time: i64,
    device: u32,
    value: u64,
    out: &mut String,
) -> Result<(), NoMemory>
    ensures { OnOk result (string_bytes out.new ≡ string_bytes out.old ++ values_text time device value) }
{
    write!(out, "({time}, {device}, {value})")?;
    Ok(())
}

/// The time of a row.
fn time_of(number: u32, place: u32) -> i64
    requires { number < 1000000 }
    ensures { result ≡ time_of number place }
{
    let time = i64::from(10 * number);
    if place < 490 { time } else { time - 5000 }
}

/// The value of a row.
fn value_of(demo: u32, number: u32) -> u64
    ensures { result ≡ value_of demo number }
{
    u64::from(demo) * u64::from(number) % 1000
}
