// Numbers as decimal digits.
ghost use Rattle.std.specs.Prelude.{◌≡◌, ◌+◌, ◌<◌, ◌≤◌, length};
ghost use Rattle.buffer.specs.Patch.{Put};
ghost use Rattle.text.specs.Decimal.{digit as digit_of, decimal};

// The digit of a number below 10.
fn digit(v: usize) -> u8
    requires { v < 10 }
    ensures { result ≡ digit_of v }
{
    b'0' + v as u8
}

// Puts a number's digits at a place, and answers the place after them.
pub fn put_decimal(v: usize, out: &mut [u8], at: usize) -> usize
    requires { at + length (decimal v) ≤ length out.old }
    ensures { Put (decimal v) at out.old out.new result }
{
    if v < 10 {
        out[at] = digit(v);
        return at + 1;
    }
    let next = put_decimal(v / 10, out, at);
    out[next] = digit(v % 10);
    next + 1
}
