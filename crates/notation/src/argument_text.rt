// Arguments as text: the decimal of a number, the letters of a name, the word of a label.
ghost use Rattle.std.specs.Prelude.{◌≡◌, ◌+◌, ◌≤◌, true, ◌++◌, length, Some, MatchOption, ◌≢◌};
ghost use Rattle.std.specs.Option.{option_map};
ghost use Rattle.notation.specs.ArgumentTexts.{Parsed, argument_text, field_of};
ghost use Rattle.notation.specs.Texts.{WroteIf, text_of};
ghost use Rattle.syntax.specs.Arguments.{of_sort, sound};
ghost use Rattle.syntax.specs.Names.{letters};
ghost use Rattle.syntax.specs.declared.argument.Argument.{Argument};

use crate::decimal::{push_decimal, read_decimal};
use crate::text::Text;
use syntax::argument::Argument;
use syntax::fault::Fault;
use syntax::kind::Sort;
use syntax::label::Label;
use syntax::name::Name;

// Writes the text of an argument at the front of a buffer.
pub fn write_argument(argument: Argument, out: &mut [u8]) -> Result<usize, Fault>
    ensures { WroteIf (sound argument) (argument_text argument) out.old out.new result }
{
    if !argument.is_of(argument.sort()) {
        return Err(Fault::Misfit);
    }
    let mut text = Text::new();
    push_argument(&mut text, argument);
    text.copy_to(out)
}

// The argument of a sort that a field of a line holds, where the field may be missing.
pub fn parse_argument(sort: Sort, field: Option<&[u8]>) -> Result<Argument, Fault>
    ensures { Parsed sort (option_map (λ x. x.now) field.entry) result }
{
    match field {
        None => match sort {
            Sort::Nothing => Ok(Argument::Nothing),
            _ => Err(Fault::Misfit),
        },
        Some(text) => parse_text(sort, text),
    }
}

fn parse_text(sort: Sort, text: &[u8]) -> Result<Argument, Fault>
    ensures { Parsed sort (Some text.now) result }
{
    match sort {
        Sort::Nothing => Err(Fault::Misfit),
        Sort::Number => Ok(Argument::Number(read_decimal(text).ok_or(Fault::Misfit)?)),
        Sort::Name => Ok(Argument::Name(Name::try_from(text)?)),
        Sort::Label => Ok(Argument::Label(Label::try_from(text)?)),
    }
}

// Adds the text of an argument to a text.
pub(crate) fn push_argument(text: &mut Text, argument: Argument)
    requires sound { sound argument ≡ true }
    requires room { length (text_of text.old) + 6 ≤ 64 }
    ensures bytes { text_of text.new ≡ text_of text.old ++ argument_text argument }
    ensures len { length (text_of text.new) ≤ length (text_of text.old) + 6 }
{
    match argument {
        Argument::Nothing => {}
        Argument::Number(n) => push_decimal(text, n),
        Argument::Name(name) => push_letters(text, name),
        Argument::Label(label) => text.append(label.word()),
    }
}

// Adds the letters of a name to a text.
pub(crate) fn push_letters(text: &mut Text, name: Name)
    requires { length (text_of text.old) + 4 ≤ 64 }
    ensures bytes { text_of text.new ≡ text_of text.old ++ letters name.0 }
    ensures len { length (text_of text.new) ≤ length (text_of text.old) + 4 }
{
    text.append(&name.0[0..name.len()]);
}
