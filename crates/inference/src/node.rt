// The typing string of a node over the strings of its children.
ghost use Rattle.std.specs.Prelude.{◌≡◌, ◌≤◌, [], length};
ghost use Rattle.reading.specs.Readings.{Weighed, refusal, texts};
ghost use Rattle.inference.specs.Nodes.{Answered, Infers, Lawful, Writes, allowed, typed};
ghost use Rattle.inference.specs.Tables.{graph_of};

use crate::base::Base;
use crate::constrain::constrain;
use crate::draft::Draft;
use crate::join::add_children;
use crate::outcome::Outcome;
use crate::table::Table;
use crate::tally::{sum_tallies, with_node};
use crate::typing_string::write_string;
use forms::outline::is_lawful;
use syntax::argument::Symbol;
use syntax::fault::Fault;

// How many bytes a typing string may have: a status, three counts of two, and a form of 240.
pub const TYPES_LIMIT: usize = 247;

// The most general form of a node, or why it has none.
fn infer(symbol: Symbol, parts: &[&[u8]]) -> Result<Outcome, Fault>
    requires { Lawful symbol (texts parts.now) }
    ensures { Infers symbol (texts parts.now) result }
{
    infer_over(symbol, parts, &mut Table::new())
}

// The same over a table that has no cells. The draft is made in a function of its own, so that it can have
// the place on the stack that making the table took.
fn infer_over(symbol: Symbol, parts: &[&[u8]], table: &mut Table) -> Result<Outcome, Fault>
    requires lawful { Lawful symbol (texts parts.now) }
    requires empty { graph_of table.old ≡ [] }
    ensures { Infers symbol (texts parts.now) result }
{
    let mut draft = Draft::new(table);
    let mut types = [0; 3];
    let fresh = add_children(parts, Base { cell: 0 }, &mut draft, &mut types)?;
    let result = constrain(symbol, fresh, &types, &mut draft)?;
    Ok(draft.solve(result))
}

// Writes the string of a node over lawful strings at the front of a buffer, and answers its length.
fn write_lawful(symbol: Symbol, parts: &[&[u8]], out: &mut [u8]) -> Result<usize, Fault>
    requires lawful { Lawful symbol (texts parts.now) }
    requires room { 247 ≤ length out.old }
    ensures { Writes symbol (texts parts.now) out.old out.new result }
{
    let outcome = infer(symbol, parts)?;
    let tally = with_node(sum_tallies(parts)?, symbol.kind, &outcome);
    Ok(write_string(&outcome, tally, out))
}

// Whether a string is a typing string, where every byte of a slice is one.
#[tactic(auto, using(crate::proofs::ChildFacts::all_bytes_lem))]
pub fn is_allowed(text: &[u8]) -> bool
    ensures { result ≡ allowed text.now }
{
    is_lawful(text)
}

// Refuses a node for the first reason that holds.
fn admit(symbol: Symbol, parts: &[&[u8]], room: usize) -> Result<(), Fault>
    ensures { Weighed (refusal typed 0 symbol (texts parts.now) room) result }
{
    symbol.fit()?;
    if room < TYPES_LIMIT {
        return Err(Fault::ShortBuffer);
    }
    if parts.len() != symbol.kind.arity() {
        return Err(Fault::Unlawful);
    }
    if !parts.iter().all(|part| is_allowed(part)) {
        return Err(Fault::Unlawful);
    }
    Ok(())
}

// Writes the typing string of a node over its children's strings at the front of a buffer, and answers
// its length. It is refused as a reading refuses it, but for the meter.
pub fn write_node(symbol: Symbol, parts: &[&[u8]], out: &mut [u8]) -> Result<usize, Fault>
    ensures { Answered symbol (texts parts.now) out.old out.new result }
{
    admit(symbol, parts, out.len())?;
    write_lawful(symbol, parts, out)
}
