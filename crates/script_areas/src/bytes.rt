// Bytes written into an area and shown of one.
ghost use Rattle.std.specs.Prelude.{◌≡◌, ◌≤◌, IfSome, length};
ghost use Rattle.script_areas.specs.Poke.{Poked};

use buffer::put::put_bytes;
use script_bytes::put_hex;

// Writes bytes at a place of an area; none, where they would run over its end.
pub fn poke(area: &mut [u8], at: u64, src: &[u8]) -> Option<()>
    ensures { Poked area.old at src.now area.new result }
{
    let start = at as usize;
    if area.len().checked_sub(start)? < src.len() {
        return None;
    }
    put_bytes(area, start, src);
    Some(())
}

// Copies one area over another of the same length.
pub fn copy(to: &mut [u8], from: &[u8])
    requires { length to.old ≡ length from.now }
    ensures { to.new ≡ from.now }
{
    to.copy_from_slice(from);
}

// Writes `=`, so many bytes of an area from a place on, and a newline, and says how many bytes that took; none, where more than
// 2,048 are asked for, or they run over the area's end.
pub fn show(area: &[u8], at: u64, count: u64, out: &mut [u8]) -> Option<usize>
    requires { 4098 ≤ length out.old }
    ensures { IfSome result (λ written. written ≤ length out.old) }
{
    let shown = area.get(at as usize..)?.get(..count as usize)?;
    if 2048 < shown.len() {
        return None;
    }
    let next = put_hex(shown, out, 0);
    out[next] = b'\n';
    Some(next + 1)
}
