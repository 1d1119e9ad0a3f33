// A name with the cell of its type.
use syntax::name::Name;

#[derive(Clone, Copy, Default)]
pub struct Entry {
    pub name: Name,
    pub cell: usize,
}
