// The first of some cells in a row.
ghost use Rattle.std.specs.Prelude.{◌≤◌};

// The cell of a form's first variable, or the first of those that a node takes for itself; the others
// stand behind it. It is one of a table, so that no number of theirs overflows.
#[derive(Clone, Copy)]
pub struct Base {
    pub cell: usize,
    ghost small: { cell ≤ 1440 },
}
