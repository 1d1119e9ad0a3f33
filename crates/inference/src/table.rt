// The cells of a graph, held by value.
ghost use Rattle.std.specs.Prelude.{◌≤◌};

use typing::cell::Cell;

pub mod build;

// How many cells there can be: two for each byte of three forms, and a few for the node itself.
pub const MOST_CELLS: usize = 1440;

// An array, since making a vector of fixed capacity goes over all its cells three times: that took more
// time than all the rest of a small question.
#[derive(Drop)]
pub struct Table {
    pub(crate) cells: [Cell; MOST_CELLS],
    pub(crate) len: usize,
    ghost within: { len ≤ 1440 },
}
