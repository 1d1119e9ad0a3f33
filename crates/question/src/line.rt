// What a line asks: a reading, a node, and the strings of the node's children.
ghost use Rattle.std.specs.Prelude.{◌≡◌, ◌≤◌, true, false, map, length, take, MatchResult};
ghost use Rattle.syntax.specs.Arguments.{fits};
ghost use Rattle.syntax.specs.declared.fault.Fault.TheVariants.{Unlawful};
ghost use Rattle.reading.specs.Readings.{suits};
ghost use Rattle.question.specs.Fields.{are_strings, fields_in, length_in};
ghost use Rattle.question.specs.Digits.{hex, unhex};
ghost use Rattle.question.specs.Questions.{Answer, meaning_of, refused};

use crate::fields::{are_strings, split_field};
use crate::node::find_node;
use crate::source::Source;
use crate::strings::ask_strings;
use reading::names::Names;
use syntax::argument::Symbol;
use syntax::fault::Fault;

// The longest line.
const MAX_LINE: usize = 4096;

// Writes the string that a line asks for at the front of a buffer.
pub(crate) fn ask_line(line: &[u8], out: &mut [u8]) -> Result<usize, Fault>
    requires { 1024 ≤ length out.old }
    ensures { MatchResult result (λ n. (n ≤ 1024) × Answer line.now (hex (take n out.new))) (λ fault. Answer line.now (refused fault)) }
{
    if line.len() > MAX_LINE {
        return Err(Fault::BadLine);
    }
    let (reading, rest) = split_field(line);
    let Some(rest) = rest else {
        return Err(Fault::BadLine);
    };
    let (word, rest) = split_field(rest);
    let Some(rest) = rest else {
        return Err(Fault::BadLine);
    };
    let (argument, strings) = split_field(rest);
    let Ok(source) = Source::try_from(reading) else {
        return Err(Fault::BadLine);
    };
    if word.is_empty() || argument.is_empty() || !are_strings(strings) {
        return Err(Fault::BadLine);
    }
    let symbol = find_node(word, argument)?;
    ask_source(source, symbol, strings, out)
}

// Puts a question to a reading whose meter starts at 0.
fn ask_source(
    source: Source,
    symbol: Symbol,
    strings: Option<&[u8]>,
    out: &mut [u8],
) -> Result<usize, Fault>
    requires fit { fits symbol ≡ true }
    requires room { 1024 ≤ length out.old }
    requires strings { are_strings (fields_in strings) ≡ true }
    requires short { length_in strings ≤ 4096 }
    ensures { MatchResult result (λ n. (suits (meaning_of source) symbol (map unhex (fields_in strings.entry)) ≡ true) × (n ≤ 1024) × (take n out.new ≡ (meaning_of source).rule symbol (map unhex (fields_in strings.entry)))) (λ fault. (fault ≡ Unlawful) × (suits (meaning_of source) symbol (map unhex (fields_in strings.entry)) ≡ false)) }
{
    match source {
        Source::Names => ask_strings(&mut Names::new(0)?, symbol, strings, out),
    }
}
