// An input, read in pieces.
ghost use Rattle.std.specs.Prelude.{◌≡◌, ◌+◌, ◌<◌, ◌≤◌, IfOk, length, take, drop};
ghost use Rattle.std.specs.Io.KnownBytes.{ReadConsumes};

use std::io::{self, Read};

// Reads once behind the bytes that are held, which stay, also where the read fails, and says how many came. There is room
// for some, so none came only at the end of the input. Fails where the read does, with the read's error; nothing is taken then.
pub fn refill<R: Read>(input: &mut R, buf: &mut [u8], held: usize) -> io::Result<usize>
    requires { held < length buf.old }
    ensures fits { IfOk result (λ got. held + got ≤ length buf.old) }
    ensures kept { take held buf.new ≡ take held buf.old }
    ensures taken { ReadConsumes (R.remaining input.old) (R.remaining input.new) result (drop held buf.new) }
{
    let room = &mut buf[held..];
    input.read(room)
}
