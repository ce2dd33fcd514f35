// A word of a call script as bytes, and bytes printed.
#![tactic(auto)]

ghost use Rattle.std.specs.Prelude.{◌≡◌, ℕ, ◌+◌, ◌*◌, ◌<◌, ◌≤◌, length, ◌∷◌};
ghost use Rattle.buffer.specs.Patch.{patch};
ghost use Rattle.script_bytes.specs.Bytes.{hex_digit, hex, HexDigitOf, BytesOf};

// The most bytes that a word may have.
const MOST: usize = 2048;

// The value of a lower-case hexadecimal digit.
fn value_of(c: u8) -> Option<u8>
    ensures { HexDigitOf c result }
{
    match c {
        b'0'..=b'9' => Some(c - b'0'),
        b'a'..=b'f' => Some(c - b'a' + 10),
        _ => None,
    }
}

// Reads "`=` followed by an even number of lower-case hexadecimal digits, two a byte", at most 2,048 bytes, into a buffer, and
// says how many they are.
pub fn read_bytes(w: &[u8], out: &mut [u8]) -> Option<usize>
    requires { 2048 ≤ length out.old }
    ensures { BytesOf w.now out.new result }
{
    let digits = w.strip_prefix(b"=")?;
    if digits.len() % 2 != 0 {
        return None;
    }
    let n = digits.len() / 2;
    if MOST < n {
        return None;
    }
    for i in 0..n {
        out[i] = 16 * value_of(digits[2 * i])? + value_of(digits[2 * i + 1])?;
    }
    Some(n)
}

// The lower-case hexadecimal digit of a number below 16.
fn digit_of(d: u8) -> u8
    requires { d < 16 }
    ensures { result ≡ hex_digit d }
{
    match d {
        0..=9 => b'0' + d,
        _ => b'a' + (d - 10),
    }
}

// Puts `=` and the digits of some bytes at a place, and answers the place after them.
pub fn put_hex(s: &[u8], out: &mut [u8], at: usize) -> usize
    requires { at + 2 * length s.now + 1 ≤ length out.old }
    ensures { (result ≡ at + 2 * length s.now + 1) × (out.new ≡ patch out.old at (61 ∷ hex s.now)) }
{
    out[at] = b'=';
    let mut to = at + 1;
    for &b in s {
        out[to] = digit_of(b / 16);
        out[to + 1] = digit_of(b % 16);
        to += 2;
    }
    to
}
