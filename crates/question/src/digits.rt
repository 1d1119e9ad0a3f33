// Bytes as pairs of lowercase hexadecimal digits. They are written by the crate `hex`; reading is
// done here, since that crate takes capitals too.
ghost use Rattle.std.specs.Prelude.{◌≡◌, ◌+◌, ◌*◌, ◌<◌, ◌≤◌, true, ◌||◌, ◌++◌, length, drop, nat_lt};
ghost use Rattle.question.specs.Digits.{hex as hexed, is_digit, is_hex, unhex as unhexed, worth as worth_of};
ghost use Rattle.question.specs.Fields.{is_string};

use arrayvec::ArrayVec;

// The most bytes that the strings of a line stand for.
pub const ROOM: usize = 2048;

fn is_digit(c: u8) -> bool
    ensures { result ≡ is_digit c }
{
    c.is_ascii_digit() || matches!(c, b'a'..=b'f')
}

// Whether a text is whole pairs of digits.
pub(crate) fn is_hex(text: &[u8]) -> bool
    ensures { result ≡ is_hex text.now }
{
    match text {
        [] => true,
        [high, low, rest @ ..] => is_digit(*high) && is_digit(*low) && is_hex(rest),
        _ => false,
    }
}

// What a digit is worth.
fn worth(c: u8) -> u8
    requires { is_digit c ≡ true }
    ensures value { result ≡ worth_of c }
    ensures bound { result < 16 }
{
    if c <= b'9' { c - b'0' } else { c - b'a' + 10 }
}

// The bytes that a block of digits stands for.
fn unhex_block(digits: &[u8; 32]) -> [u8; 16]
    requires { is_hex digits.now ≡ true }
    ensures { result ≡ unhexed digits.now }
{
    let mut bytes = [0; 16];
    for i in 0..16 {
        bytes[i] = 16 * worth(digits[2 * i]) + worth(digits[2 * i + 1]);
    }
    bytes
}

// Appends the bytes that digits stand for, pair by pair.
fn unhex_pairs(text: &[u8], bytes: &mut ArrayVec<u8, ROOM>)
    requires pairs { (nat_lt (length text.now) 2 || is_hex text.now) ≡ true }
    requires room { 2 * length bytes.old.items + length text.now ≤ 4096 }
    ensures half { 2 * length bytes.new.items ≤ 2 * length bytes.old.items + length text.now }
    ensures items { bytes.new.items ≡ bytes.old.items ++ unhexed text.now }
{
    let mut rest = text;
    while let Some((pair, after)) = rest.split_first_chunk::<2>() {
        bytes.push(16 * worth(pair[0]) + worth(pair[1]));
        rest = after;
    }
}

// Appends the bytes that a child's string stands for. They go in by blocks, and those left over one
// by one, since a vector counts anew at each push.
pub(crate) fn unhex(text: &[u8], bytes: &mut ArrayVec<u8, ROOM>)
    requires string { is_string text.now ≡ true }
    requires room { 2 * length bytes.old.items + length text.now ≤ 4096 }
    ensures half { 2 * length bytes.new.items ≤ 2 * length bytes.old.items + length text.now }
    ensures items { bytes.new.items ≡ bytes.old.items ++ unhexed text.now }
{
    let mut rest = text;
    while let Some((digits, after)) = rest.split_first_chunk::<32>() {
        // There is room for them, so nothing is refused.
        let _ = bytes.try_extend_from_slice(&unhex_block(digits));
        rest = after;
    }
    unhex_pairs(rest, bytes);
}

// Writes the digits of bytes at the front of a buffer.
pub(crate) fn write_hex(bytes: &[u8], out: &mut [u8]) -> usize
    requires { 2 * length bytes.now ≤ length out.old }
    ensures twice { result ≡ 2 * length bytes.now }
    ensures long { result ≡ length (hexed bytes.now) }
    ensures wrote { out.new ≡ hexed bytes.now ++ drop result out.old }
{
    let n = 2 * bytes.len();
    hex::encode_to_slice(bytes, &mut out[..n]).unwrap();
    n
}
