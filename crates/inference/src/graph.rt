// A graph of cells that can be solved: there are no more cells than a table has, a link leads to a cell of
// a smaller number, and the parts of a cell are cells of the graph.
ghost use Rattle.std.specs.Prelude.{◌≡◌, ◌<◌, ◌≤◌, length};
ghost use Rattle.typing.specs.Cells.{find};
ghost use Rattle.typing.specs.Solutions.{Tidy};
ghost use Rattle.inference.specs.TidyGraphs.{tidy_prop};

use typing::cell::Cell;

#[derive(Drop)]
pub struct Graph<'a> {
    pub cells: &'a mut [Cell],
    ghost few: { length cells.now ≤ 1440 },
    ghost tidy: { Tidy (length cells.now) cells.now } by { tidy_prop _ _ },
}

impl<'a> Graph<'a> {
    pub(crate) fn new(cells: &'a mut [Cell]) -> Graph<'a>
        requires few { length cells.old ≤ 1440 }
        requires tidy { Tidy (length cells.old) cells.old }
        ensures { result.cells.now ≡ cells.old }
    {
        Graph { cells }
    }

    // The cell that a chain of links ends at.
    pub(crate) fn root(&self, start: usize) -> usize
        requires { start < length self.now.cells.now }
        ensures value { result ≡ find self.now.cells.now start }
        ensures bound { result < length self.now.cells.now }
    {
        let mut i = start;
        while let Cell::Link(j) = self.cells[i] {
            i = j;
        }
        i
    }
}
