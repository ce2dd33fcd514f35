// Numbers in a buffer, "stored low byte first".
#![tactic(auto, using(crate::specs::Laws::Numeral::numerals))]

ghost use Rattle.std.specs.Prelude.{◌≡◌, ◌+◌, ◌<◌, ◌≤◌, length, get_or, take, drop};
ghost use Rattle.buffer.specs.Numeral.{numeral};

// The byte at a place.
pub fn byte_at(s: &[u8], at: usize) -> usize
    requires { at < length s.now }
    ensures { (result ≡ get_or s.now at 0) × (result < 256) }
{
    s[at] as usize
}

// The number of 2 bytes at a place.
pub fn two_at(s: &[u8], at: usize) -> usize
    requires { at + 2 ≤ length s.now }
    ensures { (result ≡ numeral (take 2 (drop at s.now))) × (result < 65536) }
{
    byte_at(s, at) + 256 * byte_at(s, at + 1)
}

// The number of 4 bytes at a place.
pub fn four_at(s: &[u8], at: usize) -> usize
    requires { at + 4 ≤ length s.now }
    ensures { (result ≡ numeral (take 4 (drop at s.now))) × (result < 4294967296) }
{
    two_at(s, at) + 65536 * two_at(s, at + 2)
}
