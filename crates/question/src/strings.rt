// A question over children's strings in hexadecimal.
ghost use Rattle.std.specs.Prelude.{◌≡◌, ◌+◌, ◌*◌, ◌<◌, ◌≤◌, true, ◌++◌, map, length, take};
ghost use Rattle.syntax.specs.Arguments.{fits};
ghost use Rattle.reading.specs.Readings.{Asked, meter_end};
ghost use Rattle.question.specs.Fields.{are_strings, fields_in, is_string, length_in};
ghost use Rattle.question.specs.Digits.{unhex as unhexed};

use crate::digits::unhex;
use crate::fields::split_field;
use arrayvec::ArrayVec;
use reading::Reading;
use syntax::argument::Symbol;
use syntax::fault::Fault;

// Asks a reading for a node over the children's strings that are left of a line. No node has more
// than three children, so more strings are refused unread.
pub(crate) fn ask_strings<R: Reading>(
    reading: &mut R,
    symbol: Symbol,
    rest: Option<&[u8]>,
    out: &mut [u8],
) -> Result<usize, Fault>
    requires fit { fits symbol ≡ true }
    requires some { R.metered reading.old < meter_end }
    requires room { (R.means reading.old).bound ≤ length out.old }
    requires strings { are_strings (fields_in rest) ≡ true }
    requires short { length_in rest ≤ 4096 }
    ensures { Asked R.means R.metered reading.old reading.new symbol (map unhexed (fields_in rest.entry)) out.old out.new result }
{
    let kind = symbol.kind;
    let argument = symbol.argument;
    let Some(rest) = rest else {
        return reading.ask(kind, argument, &[], out);
    };
    let mut bytes = ArrayVec::new();
    let (field, rest) = split_field(rest);
    unhex(field, &mut bytes);
    let a = bytes.len();
    let Some(rest) = rest else {
        return reading.ask(kind, argument, &[bytes.as_slice()], out);
    };
    let (field, rest) = split_field(rest);
    unhex(field, &mut bytes);
    let b = bytes.len();
    let Some(rest) = rest else {
        let (first, second) = bytes.as_slice().split_at(a);
        return reading.ask(kind, argument, &[first, second], out);
    };
    let (field, rest) = split_field(rest);
    unhex(field, &mut bytes);
    if rest.is_some() {
        return Err(Fault::Unlawful);
    }
    let (front, third) = bytes.as_slice().split_at(b);
    let (first, second) = front.split_at(a);
    reading.ask(kind, argument, &[first, second, third], out)
}
