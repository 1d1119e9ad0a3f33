// A problem as it is drafted over cells: the graph, the entries of the form, and the pairs of cells
// that have to be equal.
ghost use Rattle.std.specs.Prelude.{◌≡◌, ◌≤◌, []};
ghost use Rattle.typing.specs.Cells.{unify};
ghost use Rattle.typing.specs.Constraints.{type_of};
ghost use Rattle.typing.specs.Posing.{finished_at};
ghost use Rattle.inference.specs.Drafts.{Does, LaysAt, build_at, equate_at, put_slot, state_of, unknowns, with_graph};
ghost use Rattle.inference.specs.Nodes.{Ready};
ghost use Rattle.inference.specs.Outcomes.{Concludes};
ghost use Rattle.inference.specs.Posed.{drop_name};
ghost use Rattle.inference.specs.Tables.{graph_of};

use crate::base::Base;
use crate::entries::Entries;
use crate::entry::Entry;
use crate::lay::lay_term;
use crate::outcome::Outcome;
use crate::table::Table;
use crate::worklist::MOST_PAIRS;
use arrayvec::ArrayVec;
use syntax::fault::Fault;
use syntax::name::Name;
use typing::cell::Cell;
use typing::head::Head;

#[derive(Drop)]
pub struct Draft<'t> {
    table: &'t mut Table,
    entries: Entries,
    pairs: ArrayVec<(usize, usize), MOST_PAIRS>,
}

impl<'t> Draft<'t> {
    // The table is lent, since one inside a draft would be copied when the draft is moved.
    pub(crate) fn new(table: &'t mut Table) -> Draft<'t>
        ensures { state_of result ≡ with_graph (unknowns 0) (graph_of table.old) }
    {
        Draft {
            table,
            entries: Entries::new(),
            pairs: ArrayVec::new(),
        }
    }

    // Adds so many free cells to a draft that has none.
    pub(crate) fn push_free(&mut self, count: usize) -> Result<(), Fault>
        requires { state_of self.old ≡ unknowns 0 }
        ensures { Does (unknowns count, tt) (state_of self.new) result }
    {
        self.table.push_free(count)
    }

    // Lays out the term at the front of some bytes, whose variables have the cells from a base on.
    pub(crate) fn lay<'a>(
        &mut self,
        bytes: &'a [u8],
        base: Base,
    ) -> Result<(usize, &'a [u8]), Fault>
        ensures { LaysAt base.cell bytes.now (state_of self.old) (state_of self.new) result }
    {
        lay_term(bytes, base, self.table)
    }

    // Adds a head over the cells of its parts, and answers its cell.
    pub(crate) fn build(&mut self, head: Head, parts: &[usize]) -> Result<usize, Fault>
        ensures { Does (build_at head parts.now (state_of self.old)) (state_of self.new) result }
    {
        self.table.build(head, parts)
    }

    // Adds a head without parts, and answers its cell.
    pub(crate) fn atom(&mut self, head: Head) -> Result<usize, Fault>
        ensures { Does (build_at head [] (state_of self.old)) (state_of self.new) result }
    {
        self.table.push(Cell::Atom(head))
    }

    // Takes a name off the list; the answer is its cell, or the one at hand if it is not listed.
    pub(crate) fn remove(&mut self, name: Name, other: usize) -> usize
        ensures state { state_of self.new ≡ drop_name name.0 (state_of self.old) }
        ensures value { result ≡ type_of name.0 (state_of self.old).slots other }
    {
        self.entries.remove(name, other)
    }

    // Two cells have to be equal.
    pub(crate) fn equate(&mut self, a: usize, b: usize) -> Result<(), Fault>
        ensures { Does (equate_at a b (state_of self.old), tt) (state_of self.new) result }
    {
        self.pairs.try_push((a, b)).map_err(|_| Fault::ShortBuffer)
    }

    // Lists an entry; where its name is listed already, the two cells have to be equal.
    pub(crate) fn put(&mut self, entry: Entry) -> Result<(), Fault>
        ensures { Does (put_slot (entry.name.0, entry.cell) (state_of self.old), tt) (state_of self.new) result }
    {
        match self.entries.insert(entry)? {
            Some(listed) => self.equate(listed, entry.cell),
            None => Ok(()),
        }
    }

    // The most general form of the entries and the type in a cell.
    pub(crate) fn solve(&mut self, type_cell: usize) -> Outcome
        requires { Ready (state_of self.old) type_cell }
        ensures { Concludes (finished_at (record { entries = (state_of self.old).slots; result = type_cell }) (unify (state_of self.old).graph (state_of self.old).pairs)) result }
    {
        self.table
            .solve(&mut self.pairs, self.entries.as_slice(), type_cell)
    }
}
