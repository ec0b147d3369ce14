//! Rows of cells.
ghost use Rattle.std.specs.Prelude.{◌≡◌, ◌==◌, [], ◌∷◌, ◌++◌, length, IfOk, OnErr};
ghost use Rattle.cell_rows.specs.Parts.{AreParts, parts};

use crate::iter::Iter;
use std::alloc::Global;
use std::marker::Model;
use ts_schema::NoMemory;

/// Rows of cells, of any length each. Contracts see them as a list of lists.
#[derive(Drop, Debug)]
pub struct CellRows<T> {
    /// The cells of all rows, in order.
    cells: Vec<T>,
    /// The place at which the cells of each row end.
    ends: Vec<usize>,
}

impl<T> Model for CellRows<T> {
    ghost use Rattle.std.specs.Prelude.{List};
    ghost use Rattle.cell_rows.specs.Parts.{AreParts, parts};

    ghost Value = { List (List T) };

    ghost view = { λ r. parts 0 r.ends.items r.cells.items };

    ghost invariant = { λ r. AreParts 0 r.ends.items r.cells.items };
}

impl<T> CellRows<T> {
    /// No rows. It takes no memory.
    pub fn new(alloc: Global) -> CellRows<T>
        ensures rows { result ≡ [] }
    {
        CellRows {
            cells: Vec::new(alloc),
            ends: Vec::new(alloc),
        }
    }

    /// The rows whose cells are in `cells`, in order. `ends` is where each row ends.
    pub fn of(cells: Vec<T>, ends: Vec<usize>) -> CellRows<T>
        requires parts { AreParts 0 ends.items cells.items }
        ensures rows { result ≡ parts 0 ends.items cells.items }
    {
        CellRows { cells, ends }
    }

    /// The number of rows.
    pub fn len(&self) -> usize
        ensures len { result ≡ length self.now }
    {
        self.ends.as_slice().len()
    }

    /// Whether there is no row.
    pub fn is_empty(&self) -> bool
        ensures empty { result ≡ (length self.now == 0) }
    {
        self.len() == 0
    }

    /// The rows, in order, each as a slice of its cells.
    pub fn iter(&self) -> Iter<'_, T>
        ensures rows { result ≡ self.now }
    {
        Iter::of(self.cells.as_slice(), self.ends.as_slice())
    }
}

impl<T: Copy + Drop> CellRows<T> {
    /// Makes room for this many more rows and for this many cells in them. Changes no row.
    pub fn reserve(&mut self, rows: usize, cells: usize) -> Result<(), NoMemory>
        ensures same { self.new ≡ self.old }
    {
        self.ends.reserve(rows)?;
        self.cells.reserve(cells)?;
        Ok(())
    }

    /// Appends a row of these cells.
    pub fn push(&mut self, row: &[T]) -> Result<(), NoMemory>
        ensures pushed { IfOk result (λ _. self.new ≡ self.old ++ row.now ∷ []) }
        ensures kept { OnErr result (self.new ≡ self.old) }
    {
        self.ends.reserve(1)?;
        self.cells.extend_from_slice(row)?;
        self.ends.push_reserved(self.cells.as_slice().len());
        Ok(())
    }
}
