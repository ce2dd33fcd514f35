// Numbers and bytes put into a buffer at a place; every put answers the place after it.
#![tactic(auto, using(crate::specs::Laws::Patch::puts), unfolding(crate::specs::Numeral::bytes))]

ghost use Rattle.std.specs.Prelude.{◌+◌, ◌≤◌, length};
ghost use Rattle.buffer.specs.Numeral.{bytes};
ghost use Rattle.buffer.specs.Patch.{Put};

// Puts a number in 1 byte at a place.
pub fn put_one(buf: &mut [u8], at: usize, v: usize) -> usize
    requires { at + 1 ≤ length buf.old }
    ensures { Put (bytes 1 v) at buf.old buf.new result }
{
    buf[at] = (v % 256) as u8;
    at + 1
}

// Puts a number in 2 bytes, low byte first.
pub fn put_two(buf: &mut [u8], at: usize, v: usize) -> usize
    requires { at + 2 ≤ length buf.old }
    ensures { Put (bytes 2 v) at buf.old buf.new result }
{
    let next = put_one(buf, at, v);
    put_one(buf, next, v / 256)
}

// Puts a number in 4 bytes, low byte first.
pub fn put_four(buf: &mut [u8], at: usize, v: usize) -> usize
    requires { at + 4 ≤ length buf.old }
    ensures { Put (bytes 4 v) at buf.old buf.new result }
{
    let next = put_two(buf, at, v);
    put_two(buf, next, v / 65536)
}

// Puts some bytes.
pub fn put_bytes(buf: &mut [u8], at: usize, src: &[u8]) -> usize
    requires { at + length src.now ≤ length buf.old }
    ensures { Put src.now at buf.old buf.new result }
{
    for i in 0..src.len() {
        buf[at + i] = src[i];
    }
    at + src.len()
}
