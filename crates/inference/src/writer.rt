// Writing the form that a graph of cells holds, its variables numbered by first appearance.
ghost use Rattle.std.specs.Prelude.{◌≡◌, ◌<◌, ◌≤◌, [], length};
ghost use Rattle.layout.specs.Groups.{Group, group};
ghost use Rattle.typing.specs.Cells.{readback};
ghost use Rattle.typing.specs.Posing.{entries_at, form_at};
ghost use Rattle.typing.specs.Solve.{canonical, position};
ghost use Rattle.typing.specs.Strings.{form_bytes};
ghost use Rattle.typing.specs.Terms.{var};
ghost use Rattle.inference.specs.Slots.{slots_of};
ghost use Rattle.inference.specs.Writings.{Added, EntriesWithin, Writes, WritesAll, WroteForm, slots_with};

use crate::entry::Entry;
use crate::graph::Graph;
use crate::script::{FormText, Script};
use arrayvec::{ArrayVec, CapacityError};
use layout::group::group_bytes;
use typing::cell::Cell;
use typing::head::FIRST_VARIABLE;

// There is no room for the rest of a form.
#[derive(Clone, Copy, Debug, PartialEq, Eq)]
pub struct TooLong;

impl From<CapacityError> for TooLong {
    fn from(_full: CapacityError) -> TooLong {
        TooLong
    }
}

impl Script {
    fn new() -> Script
        ensures text { result.text.items ≡ [] }
        ensures seen { result.seen.items ≡ [] }
    {
        Script {
            text: ArrayVec::new(),
            seen: ArrayVec::new(),
        }
    }

    // Adds bytes, if there is room for all of them.
    fn push(&mut self, bytes: &[u8]) -> Result<(), TooLong>
        ensures { Added bytes.now self.old self.new result }
    {
        self.text.try_extend_from_slice(bytes)?;
        Ok(())
    }

    // Adds a group number, if there is room for it.
    fn push_group(&mut self, value: u32) -> Result<(), TooLong>
        requires { Group value }
        ensures { Added (group value) self.old self.new result }
    {
        self.push(&group_bytes(value).unwrap())
    }

    // The place of a cell, which is the next one if it has not appeared.
    fn place(&self, cell: usize) -> usize
        ensures value { result ≡ position cell self.now.seen.items }
        ensures bound { result ≤ 240 }
    {
        let listed = self.seen.iter().position(|seen| cell == *seen);
        listed.unwrap_or(self.seen.len())
    }

    // Writes a variable: its place among those that have appeared, after the tokens of the heads.
    fn write_variable(&mut self, cell: usize) -> Result<(), TooLong>
        ensures { Writes (var cell) self.old self.new result }
    {
        let place = self.place(cell);
        self.push_group(FIRST_VARIABLE + place as u32)?;
        if place == self.seen.len() {
            self.seen.push(cell);
        }
        Ok(())
    }

    // Writes the term of a cell, followed to this depth.
    fn write_cell(&mut self, graph: &Graph<'_>, depth: usize, cell: usize) -> Result<(), TooLong>
        requires { cell < length graph.now.cells.now }
        ensures { Writes (readback depth graph.now.cells.now cell) self.old self.new result }
    {
        if depth == 0 {
            return self.write_variable(cell);
        }
        let top = graph.root(cell);
        let found = graph.cells[top];
        match found {
            Cell::Free | Cell::Link(_) => self.write_variable(top),
            Cell::Atom(head) => self.push_group(u32::from(head)),
            Cell::Apply(function, argument) => {
                self.write_cell(graph, depth - 1, function)?;
                self.write_cell(graph, depth - 1, argument)
            }
        }
    }

    // Writes entries one after the other: each name, and the type in its cell.
    fn write_entries(&mut self, graph: &Graph<'_>, entries: &[Entry]) -> Result<(), TooLong>
        requires { EntriesWithin (length graph.now.cells.now) entries.now }
        ensures { WritesAll (entries_at graph.now.cells.now (slots_of entries.now)) self.old self.new result }
    {
        for entry in entries {
            self.push(&entry.name.0)?;
            self.write_cell(graph, graph.cells.len() + 1, entry.cell)?;
        }
        Ok(())
    }
}

// Writes a form: how many entries there are, the entries, and the type in the cell of the result.
pub(crate) fn write_form(
    graph: &Graph<'_>,
    entries: &[Entry],
    type_cell: usize,
) -> Result<FormText, TooLong>
    requires within { EntriesWithin (length graph.now.cells.now) entries.now }
    requires inside { type_cell < length graph.now.cells.now }
    requires few { Group (length entries.now) }
    ensures { WroteForm (form_bytes (canonical (form_at graph.now.cells.now (slots_with entries.now type_cell)))) result }
{
    let mut script = Script::new();
    script.push_group(entries.len() as u32)?;
    script.write_entries(graph, entries)?;
    script.write_cell(graph, graph.cells.len() + 1, type_cell)?;
    let Script { text, .. } = script;
    Ok(text)
}
