// The bytes of a buffer that are kept.
ghost use Rattle.std.specs.Prelude.{◌≡◌, ◌-◌, ◌≤◌, length, take, drop};
ghost use Rattle.buffer.specs.Patch.{patch};

// Moves the bytes from one place to another to the start of the buffer: what a pass left of the bytes at hand is at hand
// again.
pub fn keep_rest(buf: &mut [u8], from: usize, to: usize)
    requires { (from ≤ to) × (to ≤ length buf.old) }
    ensures moved { buf.new ≡ patch buf.old 0 (take (to - from) (drop from buf.old)) }
    ensures kept { take (to - from) buf.new ≡ drop from (take to buf.old) }
{
    buf.copy_within(from..to, 0);
}
