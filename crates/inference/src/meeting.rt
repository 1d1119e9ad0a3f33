// What two cells become when they are made one.
ghost use Rattle.std.specs.Prelude.{◌≡◌, ◌<◌, ◌∷◌, length, OnErr};
ghost use Rattle.typing.specs.Cells as cells;
ghost use Rattle.typing.specs.Cells.{Pairs, step};
ghost use Rattle.inference.specs.Meetings.{met_of, stepped};

use crate::graph::Graph;
use typing::cell::Cell;

// No term is both of two cells.
#[derive(Clone, Copy, Debug, PartialEq, Eq)]
pub struct Clash;

// The parts of two cells, which have to be made equal too.
#[derive(Clone, Copy)]
pub struct Parts {
    pub functions: (usize, usize),
    pub arguments: (usize, usize),
}

// The cell that two cells become, and their parts if both have any.
pub fn meet(low: Cell, high: Cell) -> Result<(Cell, Option<Parts>), Clash>
    ensures { met_of result ≡ cells.meet low high }
{
    match (low, high) {
        (Cell::Free, _) => Ok((high, None)),
        (Cell::Atom(_) | Cell::Apply(_, _), Cell::Free) => Ok((low, None)),
        (Cell::Atom(h), Cell::Atom(k)) if h == k => Ok((low, None)),
        (Cell::Apply(a, b), Cell::Apply(c, d)) => {
            let parts = Parts {
                functions: (a, c),
                arguments: (b, d),
            };
            Ok((low, Some(parts)))
        }
        _ => Err(Clash),
    }
}

impl<'a> Graph<'a> {
    // Makes two cells equal: the first of their roots becomes what both are together, the second a link
    // to it. The answer is what has to be made equal too. A clash leaves the graph as it was.
    pub(crate) fn equate(&mut self, a: usize, b: usize) -> Result<Option<Parts>, Clash>
        requires a_within { a < length self.old.cells.now }
        requires b_within { b < length self.old.cells.now }
        ensures step { (ps : Pairs) → step self.old.cells.now ((a, b) ∷ ps) ≡ stepped result self.new.cells.now ps }
        ensures kept { OnErr result (self.new.cells.now ≡ self.old.cells.now) }
    {
        let x = self.root(a);
        let y = self.root(b);
        if x == y {
            return Ok(None);
        }
        let (low, high) = (x.min(y), x.max(y));
        let (cell, parts) = meet(self.cells[low], self.cells[high])?;
        self.cells[low] = cell;
        self.cells[high] = Cell::Link(low);
        Ok(parts)
    }
}
