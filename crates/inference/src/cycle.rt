// The occurs check: whether some cell is reached from its own parts.
ghost use Rattle.std.specs.Prelude.{◌≡◌, ◌<◌, ◌≤◌, true, false, length, MatchResult};
ghost use Rattle.typing.specs.Cells.{acyclic};
ghost use Rattle.inference.specs.Walks.{Fresh, Sinks, Walked};

use crate::graph::Graph;
use crate::table::MOST_CELLS;
use typing::cell::Cell;

// A cell is reached from its own parts.
#[derive(Clone, Copy, Debug, PartialEq, Eq)]
pub struct Cycle;

// A cell is not entered yet, or its parts are being walked, or all below it is known to be well.
#[derive(Clone, Copy)]
pub enum Mark {
    Unseen,
    Open,
    Done,
}

fn unmarked() -> [Mark; MOST_CELLS]
    ensures { Fresh result }
{
    [Mark::Unseen; MOST_CELLS]
}

impl<'a> Graph<'a> {
    // Walks down from a cell, each cell once, and refuses to come back to one that is open.
    fn descend(&self, marks: &mut [Mark; MOST_CELLS], start: usize) -> Result<(), Cycle>
        requires { start < length self.now.cells.now }
        ensures { MatchResult result (λ _. Walked self.now.cells.now marks.old start marks.new) (λ _. Sinks self.now.cells.now marks.old start) }
    {
        let top = self.root(start);
        match marks[top] {
            Mark::Open => return Err(Cycle),
            Mark::Done => return Ok(()),
            Mark::Unseen => {}
        }
        marks[top] = Mark::Open;
        let cell = self.cells[top];
        if let Cell::Apply(a, b) = cell {
            self.descend(marks, a)?;
            self.descend(marks, b)?;
        }
        marks[top] = Mark::Done;
        Ok(())
    }

    // Refuses a graph in which a cell is reached from its own parts.
    pub(crate) fn check_acyclic(&self) -> Result<(), Cycle>
        ensures { MatchResult result (λ _. acyclic self.now.cells.now ≡ true) (λ _. acyclic self.now.cells.now ≡ false) }
    {
        let mut marks = unmarked();
        for i in 0..self.cells.len() {
            self.descend(&mut marks, i)?;
        }
        Ok(())
    }
}
