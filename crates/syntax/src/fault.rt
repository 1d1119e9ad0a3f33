// The refusals. Every call that turns something down says why by one of these.
ghost use Rattle.std.specs.Prelude.{◌≡◌, ◌≤◌, Some};
ghost use Rattle.syntax.specs.Faults.{number_of, shown};

use std::fmt;

// Each is shown by the number that stands at it.
#[derive(Clone, Copy, Debug, PartialEq, Eq)]
pub enum Fault {
    // A line that is empty, too long, or not of the form of any command.
    BadLine = 1,
    // An unknown kind, or an argument that is missing, surplus, ill-formed or out of range.
    Misfit = 2,
    // A path that leads to no node, or a sheet that is not open.
    NoNode = 3,
    // A number that is no child number of the kind.
    NoChild = 4,
    // Two paths of which one begins the other.
    Overlap = 5,
    // A node would lie deeper than the deepest level.
    TooDeep = 6,
    // Too few free nodes.
    TooMany = 7,
    // The reading asked for is out of date.
    Marked = 8,
    // The meter would pass its end.
    MeterFull = 9,
    // A buffer too short for what it is to hold.
    ShortBuffer = 10,
    // A file that breaks its layout.
    BadLayout = 11,
    // A child string that is missing, surplus or unlawful.
    Unlawful = 12,
}

impl From<Fault> for u8 {
    ghost from_gives = { λ fault n. (n ≡ number_of fault) × (n ≤ 12) };

    fn from(fault: Fault) -> u8 {
        fault as u8
    }
}

impl fmt::Display for Fault {
    ghost output = { λ fault. Some (shown fault) };

    fn fmt<W: fmt::Write>(&self, f: &mut fmt::Formatter<W>) -> fmt::Result {
        write!(f, "no {}", u8::from(*self))
    }
}
