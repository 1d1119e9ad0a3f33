// The cells of a graph of terms.
use crate::head::Head;

// A variable, a link to a cell of a smaller number, a head, or one cell applied to another.
#[derive(Clone, Copy, Default)]
pub enum Cell {
    #[default]
    Free,
    Link(usize),
    Atom(Head),
    Apply(usize, usize),
}
