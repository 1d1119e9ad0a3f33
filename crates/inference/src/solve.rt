// Solving: the pairs of a table's cells made equal, and the form that the cells then hold.
ghost use Rattle.std.specs.Prelude.{◌+◌, ◌<◌, ◌≤◌, length};
ghost use Rattle.layout.specs.Groups.{Group};
ghost use Rattle.typing.specs.Cells.{unify};
ghost use Rattle.typing.specs.Posing.{finished_at};
ghost use Rattle.typing.specs.Solutions.{Tidy, Within};
ghost use Rattle.inference.specs.Outcomes.{Concludes};
ghost use Rattle.inference.specs.Tables.{graph_of};
ghost use Rattle.inference.specs.Worklists.{pairs_of};
ghost use Rattle.inference.specs.Writings.{EntriesWithin, slots_with};

use crate::entry::Entry;
use crate::graph::Graph;
use crate::outcome::Outcome;
use crate::table::Table;
use crate::worklist::MOST_PAIRS;
use crate::writer::write_form;
use arrayvec::ArrayVec;

impl Table {
    // The most general form of some entries and of the type in a cell, once the pairs are equal.
    pub(crate) fn solve(
        &mut self,
        pairs: &mut ArrayVec<(usize, usize), MOST_PAIRS>,
        entries: &[Entry],
        type_cell: usize,
    ) -> Outcome
        requires tidy { Tidy (length (graph_of self.old)) (graph_of self.old) }
        requires within { Within (length (graph_of self.old)) (pairs_of pairs.old) }
        requires room { length (graph_of self.old) + length pairs.old.items ≤ 1440 }
        requires entries { EntriesWithin (length (graph_of self.old)) entries.now }
        requires inside { type_cell < length (graph_of self.old) }
        requires few { Group (length entries.now) }
        ensures { Concludes (finished_at (slots_with entries.now type_cell) (unify (graph_of self.old) (pairs_of pairs.old))) result }
    {
        let len = self.len;
        let cells = &mut self.cells[..];
        let mut graph = Graph::new(&mut cells[..len]);
        graph.unify(pairs)?;
        graph.check_acyclic()?;
        Ok(write_form(&graph, entries, type_cell)?)
    }
}
