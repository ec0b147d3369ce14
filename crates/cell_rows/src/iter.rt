//! The rows, in order.
ghost use Rattle.std.specs.Prelude.{◌≡◌};
ghost use Rattle.std.specs.Iterator.{YieldsFirstRef, item_count};
ghost use Rattle.cell_rows.specs.Parts.{AreParts, parts};

use std::marker::Model;

/// The rows that are left. Contracts see it as the list of them.
#[derive(Drop)]
pub struct Iter<'a, T> {
    cells: &'a [T],
    ends: &'a [usize],
    from: usize,
}

impl<'a, T> Model for Iter<'a, T> {
    ghost use Rattle.std.specs.Prelude.{List};
    ghost use Rattle.cell_rows.specs.Parts.{AreParts, parts};

    ghost Value = { List (List T) };

    ghost view = { λ i. parts i.from i.ends.now i.cells.now };

    ghost invariant = { λ i. AreParts i.from i.ends.now i.cells.now };
}

impl<'a, T> Iter<'a, T> {
    /// The rows whose cells these are, by where each of them ends.
    pub(crate) fn of(cells: &'a [T], ends: &'a [usize]) -> Iter<'a, T>
        requires parts { AreParts 0 ends.now cells.now }
        ensures rows { result ≡ parts 0 ends.now cells.now }
    {
        Iter {
            cells,
            ends,
            from: 0,
        }
    }
}

impl<'a, T> Iterator for Iter<'a, T> {
    type Item = &'a [T];

    ghost next_gives = { YieldsFirstRef (λ i. i) };

    ghost remaining = { item_count (λ i. i) };

    fn next(&mut self) -> Option<&'a [T]> {
        let (end, ends) = self.ends.split_first()?;
        let (row, cells) = self.cells.split_at(*end - self.from);
        self.cells = cells;
        self.ends = ends;
        self.from = *end;
        Some(row)
    }
}
