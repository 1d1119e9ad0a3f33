// What is found of a node: its form, or why it has none.
ghost use Rattle.std.specs.Prelude.{◌≡◌};
ghost use Rattle.inference.specs.Outcomes.{byte_of, clash_of, overlong_of};

use crate::cycle::Cycle;
use crate::meeting::Clash;
use crate::script::FormText;
use crate::writer::TooLong;
use forms::outline::Untyped;

pub type Outcome = Result<FormText, Untyped>;

// How many clashes the node itself is.
pub(crate) fn clashes(outcome: &Outcome) -> u32
    ensures { result ≡ clash_of outcome.now }
{
    match outcome {
        Err(Untyped::Clashed) => 1,
        _ => 0,
    }
}

// How many overlong nodes the node itself is.
pub(crate) fn overlongs(outcome: &Outcome) -> u32
    ensures { result ≡ overlong_of outcome.now }
{
    match outcome {
        Err(Untyped::Overlong) => 1,
        _ => 0,
    }
}

// The first byte of a typing string.
pub(crate) fn status(outcome: &Outcome) -> u8
    ensures { result ≡ byte_of outcome.now }
{
    match outcome {
        Ok(_) => 0,
        Err(Untyped::Clashed) => 1,
        Err(Untyped::Overlong) => 2,
    }
}

impl From<Clash> for Untyped {
    ghost use Rattle.forms.specs.declared.outline.Untyped.TheVariants.{Clashed};

    ghost from_gives = { λ _ u. u ≡ Clashed };

    fn from(_clash: Clash) -> Untyped {
        Untyped::Clashed
    }
}

impl From<Cycle> for Untyped {
    ghost use Rattle.forms.specs.declared.outline.Untyped.TheVariants.{Clashed};

    ghost from_gives = { λ _ u. u ≡ Clashed };

    fn from(_cycle: Cycle) -> Untyped {
        Untyped::Clashed
    }
}

impl From<TooLong> for Untyped {
    ghost use Rattle.forms.specs.declared.outline.Untyped.TheVariants.{Overlong};

    ghost from_gives = { λ _ u. u ≡ Overlong };

    fn from(_full: TooLong) -> Untyped {
        Untyped::Overlong
    }
}
