// The entries of a form: names with their types, the names strictly rising.
ghost use Rattle.std.specs.Prelude.{[]};
ghost use Rattle.forms.specs.Skips.{NoLonger, Skipped, skip_entries};

use crate::reader::Reader;
use syntax::fault::Fault;

impl Reader<'_> {
    // Goes past so many entries.
    pub(crate) fn read_entries(&mut self, count: u32) -> Result<(), Fault>
        ensures value { Skipped (skip_entries count [] self.old.0 self.old.1) self.new result }
        ensures left { NoLonger self.old self.new result }
    {
        let mut last = None;
        for _entry in 0..count {
            last = Some(self.read_name(last)?);
            self.read_type()?;
        }
        Ok(())
    }
}
