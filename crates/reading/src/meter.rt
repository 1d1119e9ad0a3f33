// The meter of a reading: how many questions it was granted, from where it started and up to an end.
ghost use Rattle.std.specs.Prelude.{◌≡◌, ◌+◌, ◌<◌, ◌≤◌, MatchResult};
ghost use Rattle.reading.specs.Readings.{meter_end};
ghost use Rattle.syntax.specs.declared.fault.Fault.TheVariants.{MeterFull, Misfit};

use crate::MAX_METER;
use syntax::fault::Fault;

#[derive(Clone, Copy, Debug, PartialEq, Eq)]
pub struct Meter {
    count: u32,
    ghost within: { count ≤ meter_end },
}

impl Meter {
    pub fn starting(start: u32) -> Result<Meter, Fault>
        ensures { MatchResult result (λ m. (m.count ≡ start) × (start ≤ meter_end)) (λ fault. (fault ≡ Misfit) × (meter_end < start)) }
    {
        if start > MAX_METER {
            return Err(Fault::Misfit);
        }
        Ok(Meter { count: start })
    }

    pub fn count(self) -> u32
        ensures { result ≡ self.count }
    {
        self.count
    }

    // Counts one more, unless the meter is full.
    pub fn advance(&mut self) -> Result<(), Fault>
        ensures { MatchResult result (λ _. self.new.count ≡ self.old.count + 1) (λ fault. (fault ≡ MeterFull) × (self.old.count ≡ meter_end) × (self.new ≡ self.old)) }
    {
        if self.count >= MAX_METER {
            return Err(Fault::MeterFull);
        }
        *self = Meter {
            count: self.count + 1,
        };
        Ok(())
    }
}
