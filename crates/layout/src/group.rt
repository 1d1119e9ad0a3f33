// Group numbers: seven bits to a byte, lowest first, the top bit set on all bytes but the last, in
// the shortest way and in at most three bytes.
ghost use Rattle.std.specs.Prelude.{◌≡◌, ◌+◌, ◌<◌, ◌≤◌, ◌++◌, MatchOption};
ghost use Rattle.arrayvec.specs.ArrayVec.{array_vec_len};
ghost use Rattle.layout.specs.Groups.{Group, bound, group, groups};
ghost use Rattle.layout.specs.Readers.{Reads};

use arrayvec::ArrayVec;

// The greatest group number.
pub const MAX_GROUP: u32 = 2_097_151;

// The most bytes of a group number.
pub const MAX_BYTES: usize = 3;

// A group number off the front of a slice, and the bytes behind it.
pub fn read_group(bytes: &[u8]) -> Option<(u32, &[u8])>
    ensures { Reads Group group bytes.now result }
{
    read_groups(bytes, 2)
}

// The same with at most `more` bytes after the first.
fn read_groups(bytes: &[u8], more: u32) -> Option<(u32, &[u8])>
    requires { more ≤ 2 }
    ensures { Reads (λ n. n < bound more) (groups more) bytes.now result }
{
    let (first, rest) = bytes.split_first()?;
    let low = *first as u32;
    if low < 128 {
        return Some((low, rest));
    }
    if more == 0 {
        return None;
    }
    let (high, rest) = read_groups(rest, more - 1)?;
    if high == 0 {
        return None;
    }
    Some((high * 128 + (low - 128), rest))
}

// The bytes of a group number, if the number is not too great.
pub fn group_bytes(value: u32) -> Option<ArrayVec<u8, MAX_BYTES>>
    ensures { MatchOption result (bound 2 ≤ value) (λ bytes. (value < bound 2) × (bytes.items ≡ group value)) }
{
    if value > MAX_GROUP {
        return None;
    }
    let mut bytes = ArrayVec::new();
    push_groups(&mut bytes, value, 2);
    Some(bytes)
}

// Adds the bytes of a number, of which at most `more` follow the first.
fn push_groups(bytes: &mut ArrayVec<u8, MAX_BYTES>, value: u32, more: u32)
    requires group { value < bound more }
    requires room { array_vec_len bytes.old + more + 1 ≤ 3 }
    ensures { bytes.new.items ≡ bytes.old.items ++ groups more value }
{
    if value < 128 {
        bytes.push(value as u8);
    } else if more > 0 {
        bytes.push((128 + value % 128) as u8);
        push_groups(bytes, value / 128, more - 1);
    }
}
