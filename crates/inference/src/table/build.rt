// How a table of cells is filled.
ghost use Rattle.std.specs.Prelude.{◌≡◌, ◌+◌, ◌<◌, [], ◌++◌, length, replicate, MatchResult};
ghost use Rattle.typing.specs.declared.cell.Cell.TheVariants.{Free};
ghost use Rattle.inference.specs.Builds.{Built, build};
ghost use Rattle.inference.specs.Tables.{Pushed, graph_of};

use crate::table::{MOST_CELLS, Table};
use syntax::fault::Fault;
use typing::cell::Cell;
use typing::head::Head;

impl Table {
    pub(crate) fn new() -> Table
        ensures { graph_of result ≡ [] }
    {
        Table {
            cells: [Cell::Free; MOST_CELLS],
            len: 0,
        }
    }

    // Adds a cell, if there is room, and answers its number.
    pub(crate) fn push(&mut self, cell: Cell) -> Result<usize, Fault>
        ensures { Pushed cell (graph_of self.old) (graph_of self.new) result }
    {
        let number = self.len;
        if number == MOST_CELLS {
            return Err(Fault::ShortBuffer);
        }
        self.cells[number] = cell;
        self.len = number + 1;
        Ok(number)
    }

    // Adds so many free cells, if there is room.
    pub(crate) fn push_free(&mut self, count: usize) -> Result<(), Fault>
        ensures { MatchResult result (λ _. graph_of self.new ≡ graph_of self.old ++ replicate count Free) (λ fault. 1440 < length (graph_of self.old) + count) }
    {
        for _made in 0..count {
            self.push(Cell::Free)?;
        }
        Ok(())
    }

    // Adds the cells of a head over its parts, if there is room, and answers the last one's number.
    pub(crate) fn build(&mut self, head: Head, parts: &[usize]) -> Result<usize, Fault>
        ensures { Built (build head parts.now (graph_of self.old)) (graph_of self.new) result }
    {
        let mut cell = self.push(Cell::Atom(head))?;
        for part in parts {
            cell = self.push(Cell::Apply(cell, *part))?;
        }
        Ok(cell)
    }
}
