// A table of numbers.
ghost use Rattle.std.specs.Prelude.{◌≡◌, ◌<◌};
ghost use Rattle.case_table.specs.Grids.{cell, rows};

/// A table of numbers by row and column. Contracts see the list of its `rows`.
#[derive(Clone, Copy)]
pub struct Grid<const R: usize, const C: usize> {
    cells: [[u8; C]; R],
}

impl<const R: usize, const C: usize> Grid<R, C> {
    /// The table of these rows.
    pub fn new(cells: [[u8; C]; R]) -> Grid<R, C>
        ensures { rows result ≡ cells.entry }
    {
        Grid { cells }
    }

    /// The number in this row and column, both counted from 0.
    pub fn at(&self, row: usize, column: usize) -> u8
        requires row { row < R }
        requires column { column < C }
        ensures { result ≡ cell (rows self.now) row column }
    {
        self.cells[row][column]
    }
}
