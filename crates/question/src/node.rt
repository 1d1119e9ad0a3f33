// The node that two fields of a line name: the word of its kind, and its argument.
ghost use Rattle.std.specs.Prelude.{◌≡◌, MatchResult};
ghost use Rattle.std.specs.Option.{option_map};
ghost use Rattle.syntax.specs.declared.argument.Symbol.{Symbol as ASymbol};
ghost use Rattle.syntax.specs.declared.fault.Fault.TheVariants.{Misfit};
ghost use Rattle.question.specs.Questions.{Node, written};

use crate::fields::is_dash;
use notation::argument_text::parse_argument;
use syntax::argument::Symbol;
use syntax::fault::Fault;
use syntax::kind::Kind;

pub(crate) fn find_node(word: &[u8], argument: &[u8]) -> Result<Symbol, Fault>
    ensures { MatchResult result (Node word.now argument.now) (λ fault. (fault ≡ Misfit) × ((s : ASymbol) → Node word.now argument.now s → ⊥)) }
{
    let kind = Kind::try_from(word)?;
    let argument = parse_argument(kind.sort(), field_text(argument))?;
    Ok(Symbol { kind, argument })
}

// What stands in the field of an argument: nothing, where it is a minus sign.
fn field_text(field: &[u8]) -> Option<&[u8]>
    ensures { option_map (λ x. x.now) result ≡ written field.now }
{
    if is_dash(field) { None } else { Some(field) }
}
