// The typing reading: a node's string has the most general form of the tree below it, with the numbers
// of its clashes, overlong nodes and holes.
#![tactic(auto)]

ghost use Rattle.std.specs.Prelude.{◌≡◌, ◌<◌, ◌≤◌, MatchResult};
ghost use Rattle.syntax.specs.declared.fault.Fault.TheVariants.{Misfit};
ghost use Rattle.reading.specs.Meters.{count_within};
ghost use Rattle.reading.specs.Readings.{meter_end};
ghost use Rattle.inference.specs.Nodes.{typed};
ghost use Rattle.types.specs.GivenTypings.{GivesTypings};
ghost use Rattle.types.specs.Meters.{meter_of};
ghost use Rattle.inference.proofs.TypesLaws.{types_sound};

use inference::node::{TYPES_LIMIT, is_allowed, write_node};
use reading::Reading;
use reading::meter::Meter;
use syntax::argument::{Argument, Symbol};
use syntax::fault::Fault;
use syntax::kind::Kind;

#[derive(Clone, Copy)]
pub struct Types {
    meter: Meter,
}

impl Types {
    // A typing reading whose meter starts at a number. What it says of a rule is the rule's most general
    // typing.
    pub fn new(start: u32) -> Result<Types, Fault>
        ensures typings { GivesTypings }
        ensures made { MatchResult result (λ x. (meter_of x ≡ start) × (start ≤ meter_end)) (λ fault. (fault ≡ Misfit) × (meter_end < start)) }
    {
        let meter = Meter::starting(start)?;
        Ok(Types { meter })
    }
}

impl Reading for Types {
    ghost means = { λ _. typed };

    ghost metered = { meter_of };

    ghost sound = { λ _. types_sound };

    ghost within = { λ x. count_within x.meter };

    fn limit(&self) -> usize {
        TYPES_LIMIT
    }

    fn meter(&self) -> u32 {
        self.meter.count()
    }

    fn lawful(&self, text: &[u8]) -> bool {
        is_allowed(text)
    }

    fn ask(
        &mut self,
        kind: Kind,
        argument: Argument,
        parts: &[&[u8]],
        out: &mut [u8],
    ) -> Result<usize, Fault> {
        let symbol = Symbol { kind, argument };
        symbol.fit()?;
        let mut meter = self.meter;
        meter.advance()?;
        let n = write_node(symbol, parts, out)?;
        self.meter = meter;
        Ok(n)
    }
}
