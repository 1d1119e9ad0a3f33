// The arguments of nodes, and whether one fits a kind.
ghost use Rattle.std.specs.Prelude.{◌≡◌, if◌then◌else◌, Ok, Err};
ghost use Rattle.syntax.specs.Arguments.{fits, of_sort, sort_is};
ghost use Rattle.syntax.specs.declared.fault.Fault.TheVariants.{Misfit};

use crate::fault::Fault;
use crate::kind::{Kind, Sort};
use crate::label::Label;
use crate::name::Name;

// The greatest number that a node may hold.
pub const MAX_NUMBER: u32 = 999_999;

#[derive(Clone, Copy)]
pub enum Argument {
    Nothing,
    Number(u32),
    Name(Name),
    Label(Label),
}

// What stands at a node: its kind, and the argument beside it.
#[derive(Clone, Copy)]
pub struct Symbol {
    pub kind: Kind,
    pub argument: Argument,
}

impl Argument {
    // The sort that the argument is of, if it is well formed.
    pub fn sort(self) -> Sort
        ensures { result ≡ sort_is self }
    {
        match self {
            Argument::Nothing => Sort::Nothing,
            Argument::Number(_) => Sort::Number,
            Argument::Name(_) => Sort::Name,
            Argument::Label(_) => Sort::Label,
        }
    }

    // Whether the argument is of a sort, well formed and in its range.
    pub fn is_of(self, sort: Sort) -> bool
        ensures { result ≡ of_sort sort self }
    {
        match (sort, self) {
            (Sort::Nothing, Argument::Nothing) => true,
            (Sort::Number, Argument::Number(n)) => n <= MAX_NUMBER,
            (Sort::Name, Argument::Name(name)) => name.is_valid(),
            (Sort::Label, Argument::Label(_)) => true,
            _ => false,
        }
    }
}

impl Symbol {
    // Refuses an argument that the kind does not take.
    pub fn fit(self) -> Result<(), Fault>
        ensures { result ≡ (if fits self then Ok tt else Err Misfit) }
    {
        if self.argument.is_of(self.kind.sort()) {
            Ok(())
        } else {
            Err(Fault::Misfit)
        }
    }
}
