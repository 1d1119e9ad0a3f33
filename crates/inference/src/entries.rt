// The entries of a form over cells, in the order of their names.
ghost use Rattle.std.specs.Prelude.{◌≡◌, ◌≤◌, [], length};
ghost use Rattle.typing.specs.Constraints.{type_of, without};
ghost use Rattle.inference.specs.Slots.{Finds, Inserted, entries_of, slot_of, slots_of};

use crate::entry::Entry;
use arrayvec::ArrayVec;
use std::cmp::Ordering;
use syntax::fault::Fault;
use syntax::name::Name;

// How many entries there can be: three forms, in each of which an entry takes five bytes or more.
pub const MOST_ENTRIES: usize = 144;

#[derive(Drop)]
pub struct Entries {
    entries: ArrayVec<Entry, MOST_ENTRIES>,
}

// Where a name is listed, or else where it belongs among those of rising names.
fn find(entries: &[Entry], added: Entry) -> Result<usize, usize>
    ensures { Finds added entries.now result }
{
    for (i, here) in entries.iter().enumerate() {
        match added.name.cmp(&here.name) {
            Ordering::Equal => return Ok(i),
            Ordering::Less => return Err(i),
            Ordering::Greater => {}
        }
    }
    Err(entries.len())
}

impl Entries {
    pub(crate) fn new() -> Entries
        ensures { entries_of result ≡ [] }
    {
        Entries {
            entries: ArrayVec::new(),
        }
    }

    pub(crate) fn as_slice(&self) -> &[Entry]
        ensures value { result.now ≡ entries_of self.now }
        ensures bound { length result.now ≤ 144 }
    {
        self.entries.as_slice()
    }

    // Puts an entry in its place. Where its name is listed already, nothing is added, and the answer is
    // the cell that is listed for it.
    pub(crate) fn insert(&mut self, entry: Entry) -> Result<Option<usize>, Fault>
        ensures { Inserted (slot_of entry) (slots_of (entries_of self.old)) (slots_of (entries_of self.new)) result }
    {
        match find(self.as_slice(), entry) {
            Ok(listed) => Ok(Some(self.entries[listed].cell)),
            Err(place) => match self.entries.try_insert(place, entry) {
                Ok(()) => Ok(None),
                Err(_) => Err(Fault::ShortBuffer),
            },
        }
    }

    // Takes a name off; the answer is the cell that was listed for it, or the one at hand.
    pub(crate) fn remove(&mut self, name: Name, other: usize) -> usize
        ensures slots { slots_of (entries_of self.new) ≡ without name.0 (slots_of (entries_of self.old)) }
        ensures value { result ≡ type_of name.0 (slots_of (entries_of self.old)) other }
    {
        let found = self.cell_of(name, other);
        self.entries.retain(|here| name != here.name);
        found
    }

    // The cell that is listed for a name, or the one at hand.
    fn cell_of(&self, name: Name, other: usize) -> usize
        ensures { result ≡ type_of name.0 (slots_of (entries_of self.now)) other }
    {
        match self.entries.iter().find(|here| name == here.name) {
            Some(here) => here.cell,
            None => other,
        }
    }
}
