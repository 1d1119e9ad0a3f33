// Group numbers off the front of a string.
ghost use Rattle.forms.specs.Numbers.{Counted, ReadsNumber};

use layout::group::read_group;
use syntax::fault::Fault;

// A group number off the front of a string, and the bytes behind it.
pub fn read_number(bytes: &[u8]) -> Result<(u32, &[u8]), Fault>
    ensures value { ReadsNumber bytes.now result }
    ensures read { Counted bytes.now result }
{
    read_group(bytes).ok_or(Fault::Unlawful)
}
