// The names reading: a node's string lists the names that are free in the tree below it, in rising
// order, or says that they are too many to be listed.
ghost use Rattle.std.specs.Prelude.{◌≡◌, ◌<◌, ◌≤◌, [], MatchResult};
ghost use Rattle.syntax.specs.declared.fault.Fault.TheVariants.{Misfit};
ghost use Rattle.reading.specs.FreeNames.{GivesFreeNames};
ghost use Rattle.reading.specs.Meters.{count_within, meter_of};
ghost use Rattle.reading.specs.NameSets.{kept, names_of};
ghost use Rattle.reading.specs.NamesRule.{binds, collected, named, name_in, shows};
ghost use Rattle.reading.specs.Readings.{meter_end, texts};
ghost use Rattle.reading.specs.NamesLaws.{named_sound};

use crate::Reading;
use crate::meter::Meter;
use crate::name_set::{NameSet, TooMany, is_allowed, write_many};
use syntax::argument::{Argument, Symbol};
use syntax::fault::Fault;
use syntax::kind::Kind;
use syntax::name::Name;

// How many bytes a string may have: one of its own, a count, and 63 names.
pub const NAMES_LIMIT: usize = 254;

#[derive(Clone, Copy)]
pub struct Names {
    meter: Meter,
}

impl Names {
    // A names reading whose meter starts at a number. What the reading says of a tree are the tree's
    // free names.
    #[tactic(auto, using(crate::proofs::FreeLists::gives_free_names))]
    pub fn new(start: u32) -> Result<Names, Fault>
        ensures names { GivesFreeNames }
        ensures made { MatchResult result (λ x. (meter_of x ≡ start) × (start ≤ meter_end)) (λ fault. (fault ≡ Misfit) × (meter_end < start)) }
    {
        let meter = Meter::starting(start)?;
        Ok(Names { meter })
    }
}

impl Reading for Names {
    ghost means = { λ _. named };

    ghost metered = { meter_of };

    ghost sound = { λ _. named_sound };

    ghost within = { λ x. count_within x.meter };

    fn limit(&self) -> usize {
        NAMES_LIMIT
    }

    fn meter(&self) -> u32 {
        self.meter.count()
    }

    fn lawful(&self, text: &[u8]) -> bool {
        is_allowed(text)
    }

    fn ask(
        &mut self,
        kind: Kind,
        argument: Argument,
        parts: &[&[u8]],
        out: &mut [u8],
    ) -> Result<usize, Fault> {
        let symbol = Symbol { kind, argument };
        self.admit(symbol, parts, out.len())?;
        self.meter.advance()?;
        let mut set = NameSet::new();
        match collect(symbol, parts, &mut set) {
            Ok(()) => Ok(set.write(out)),
            Err(_) => Ok(write_many(out)),
        }
    }
}

// Adds the names of a node to an empty set: its children's, without the one that it binds, and its
// own.
fn collect(symbol: Symbol, parts: &[&[u8]], set: &mut NameSet) -> Result<(), TooMany>
    requires { names_of set.old ≡ [] }
    ensures { kept result (names_of set.new) ≡ collected symbol (texts parts.now) }
{
    let bound = bound_name(symbol);
    for part in parts {
        set.merge(bound, part)?;
    }
    if let Some(name) = own_name(symbol) {
        set.insert(name)?;
    }
    Ok(())
}

// The name that a node binds in its child.
fn bound_name(symbol: Symbol) -> Option<Name>
    ensures { result ≡ binds symbol.kind symbol.argument }
{
    match symbol.kind {
        Kind::Lam => name_in(symbol.argument),
        _ => None,
    }
}

// The name that a node itself is.
fn own_name(symbol: Symbol) -> Option<Name>
    ensures { result ≡ shows symbol.kind symbol.argument }
{
    match symbol.kind {
        Kind::Var => name_in(symbol.argument),
        _ => None,
    }
}

fn name_in(argument: Argument) -> Option<Name>
    ensures { result ≡ name_in argument }
{
    match argument {
        Argument::Name(name) => Some(name),
        _ => None,
    }
}
