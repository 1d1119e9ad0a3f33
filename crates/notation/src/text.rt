// A short text that is held by value: lines, nodes and arguments are made here first, so that a refusal
// leaves the caller's buffer as it was.
ghost use Rattle.std.specs.Prelude.{◌≤◌};

pub mod build;

// How much a text can hold: more than any line, number or node takes.
pub const ROOM: usize = 64;

// An array and not a vector of fixed capacity, since that is not `Copy`.
#[derive(Clone, Copy)]
pub struct Text {
    bytes: [u8; ROOM],
    len: usize,
    ghost within: { len ≤ 64 },
}
