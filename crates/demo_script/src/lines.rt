//! The line at each place.
ghost use Rattle.std.specs.Prelude.{◌≡◌, ℕ, ◌<◌, option_map, slice_get, Some, IfSome};
ghost use Rattle.demo_script.specs.Demo.{demo_lines, line_at, round_lines};
ghost use Rattle.demo_script.specs.Lines.{text_of, IsInRound};

/// A line of the script.
#[derive(Clone, Copy, Debug, PartialEq, Eq)]
pub enum Line {
    /// Creates the table.
    Table,
    /// Makes it a hypertable.
    Hypertable,
    /// Creates the aggregate over it.
    Aggregate,
    /// Inserts a part of a round's rows.
    Insert { round: u32, part: u32 },
    /// Refreshes the aggregate over the times of the round before.
    Refresh { round: u32 },
    /// Queries the aggregate.
    Answer,
    /// Inserts a row at a time that was already refreshed.
    LateRow,
}

/// How many lines the script has.
pub(crate) const LINES: u32 = 285;

/// The line with a number, counted from 1.
pub(crate) fn line_at(number: u32) -> Option<Line>
    ensures text { (demo : ℕ) → line_at (demo_lines demo) number ≡ option_map (text_of demo) result }
    ensures early { IfSome result IsInRound }
{
    match number {
        1 => Some(Line::Table),
        2 => Some(Line::Hypertable),
        3 => Some(Line::Aggregate),
        4..=283 => Some(line_of_round((number - 4) / 7, (number - 4) % 7)),
        284 => Some(Line::LateRow),
        285 => Some(Line::Answer),
        _ => None,
    }
}

/// The line at a place of a round, counted from 0.
fn line_of_round(round: u32, place: u32) -> Line
    requires place { place < 7 }
    requires round { round < 40 }
    ensures text { (demo : ℕ) → slice_get (round_lines demo round) place ≡ Some (text_of demo result) }
    ensures early { IsInRound result }
{
    match place {
        0..=4 => Line::Insert { round, part: place },
        5 => Line::Refresh { round },
        _ => Line::Answer,
    }
}
