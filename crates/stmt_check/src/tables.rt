//! Tables and hypertables to be created.
ghost use Rattle.std.specs.Prelude.{◌≡◌, ◌<◌, ◌^◌, [], length};
ghost use Rattle.stmt_check.specs.Results.{Passes};
ghost use Rattle.stmt_check.specs.Tables.{columns_refusal, is_column, is_interval, ChecksHyper};

use crate::actions::ResolveStop;
use crate::refusals::{present, refuse_if, refuse_marked};
use ts_catalog::column_place;
use ts_model::codes::{BAD_WIDTH, NAME_TAKEN, NO_COLUMN, TOO_MANY};
use ts_model::limits::{MOST_COLUMNS, MOST_INTERVAL};
use ts_schema::{Column, Name};

/// Whether a name is among those of these columns.
fn has_column(columns: &[Column], name: &Name) -> bool
    ensures { result ≡ is_column name.now columns.now }
{
    columns.iter().any(|column| column.name == *name)
}

/// The columns of a table: none is named twice, and there are at most 16.
#[tactic(auto, using(crate::proofs::Steps::columns_step))]
pub(crate) fn check_columns(pos: u64, columns: &[Column]) -> Result<(), ResolveStop>
    ensures { Passes (columns_refusal pos (length columns.now) [] columns.now) result }
{
    for (place, column) in columns.iter().enumerate() {
        refuse_if(pos, NAME_TAKEN, has_column(&columns[..place], &column.name))?;
        refuse_marked(pos, TOO_MANY, columns.len() as u64, place >= MOST_COLUMNS)?;
    }
    Ok(())
}

/// The declared place of the time column, if the interval is in range.
pub(crate) fn check_hyper(
    pos: u64,
    columns: &[Column],
    name: &Name,
    interval: i64,
) -> Result<u32, ResolveStop>
    requires { length columns.now < 2 ^ 32 }
    ensures { ChecksHyper pos columns.now name.now interval result }
{
    let place = present(pos, NO_COLUMN, column_place(columns, name))?;
    refuse_if(pos, BAD_WIDTH, !is_in_range(interval))?;
    Ok(place)
}

/// Whether an interval is in range.
fn is_in_range(interval: i64) -> bool
    ensures { result ≡ is_interval interval }
{
    1 <= interval && interval <= MOST_INTERVAL
}
