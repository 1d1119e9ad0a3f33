// Readings: byte strings kept at the nodes of a tree, each made by a rule from those of the
// node's children.
#![tactic(auto)]

ghost use Rattle.std.specs.Prelude.{◌≡◌, ℕ, ◌≤◌};
ghost use Rattle.reading.specs.Readings.{Asked, Meaning, Sound, Weighed, meter_end, refusal, texts};

use syntax::argument::{Argument, Symbol};
use syntax::fault::Fault;
use syntax::kind::Kind;

pub mod meter;
mod name_set;
pub mod names;
pub mod twice;

// The number at which a meter is full.
pub const MAX_METER: u32 = 1_000_000_000;

// What any reading offers. Code over a reading is proved from these contracts and laws alone.
pub trait Reading {
    // The bound on its strings, which of them are lawful, and its rule.
    ghost means: { Self → Meaning };

    // How many questions it was granted, from where it started.
    ghost metered: { Self → ℕ };

    // How many bytes a string may have.
    fn limit(&self) -> usize
        ensures { result ≡ (means self.now).bound };

    // How far the meter has come.
    fn meter(&self) -> u32
        ensures { result ≡ metered self.now };

    // Whether a string is lawful.
    fn lawful(&self, text: &[u8]) -> bool
        ensures { result ≡ (means self.now).allows text.now };

    // Writes the rule's string for a node over its children's strings at the front of a buffer.
    fn ask(
        &mut self,
        kind: Kind,
        argument: Argument,
        parts: &[&[u8]],
        out: &mut [u8],
    ) -> Result<usize, Fault>
        ensures { Asked means metered self.old self.new (record { kind = kind; argument = argument }) (texts parts.now) out.old out.new result };

    // Refuses a question, put with a buffer of so many bytes, for the first reason that holds. It is
    // the same for all readings, so it stands here.
    fn admit(&self, symbol: Symbol, parts: &[&[u8]], room: usize) -> Result<(), Fault>
        ensures { Weighed (refusal (means self.now) (metered self.now) symbol (texts parts.now) room) result }
    {
        symbol.fit()?;
        if self.meter() >= MAX_METER {
            return Err(Fault::MeterFull);
        }
        if room < self.limit() {
            return Err(Fault::ShortBuffer);
        }
        if parts.len() != symbol.kind.arity() {
            return Err(Fault::Unlawful);
        }
        if !parts.iter().all(|part| self.lawful(part)) {
            return Err(Fault::Unlawful);
        }
        Ok(())
    }

    ghost sound: { (x : Self) → Sound (means x) };

    ghost within: { (x : Self) → metered x ≤ meter_end };
}
