// The lines that the program `losses` prints: that of a record, and that of a bad one.
#![tactic(auto)]

ghost use Rattle.std.specs.Prelude.{◌+◌, ◌≤◌, length};
ghost use Rattle.buffer.specs.Patch.{Put};
ghost use Rattle.losses_line.specs.Line.{with_end, line, bad_line};

use buffer::put::put_bytes;
use text::decimal::put_decimal;

// Puts a number and the byte that ends it.
fn put_with_end(v: usize, end: u8, out: &mut [u8], at: usize) -> usize
    requires { at + length (with_end v end) ≤ length out.old }
    ensures { Put (with_end v end) at out.old out.new result }
{
    let next = put_decimal(v, out, at);
    out[next] = end;
    next + 1
}

// Puts a record's line: "sequence, program and kind, separated by spaces, a line each".
pub fn put_line(sequence: usize, program: usize, code: usize, out: &mut [u8], at: usize) -> usize
    requires { at + length (line sequence program code) ≤ length out.old }
    ensures { Put (line sequence program code) at out.old out.new result }
{
    let a = put_with_end(sequence, b' ', out, at);
    let b = put_with_end(program, b' ', out, a);
    put_with_end(code, b'\n', out, b)
}

// Puts the line of a bad record: the word bad, "a space and its byte offset".
pub fn put_bad(offset: usize, out: &mut [u8], at: usize) -> usize
    requires { at + length (bad_line offset) ≤ length out.old }
    ensures { Put (bad_line offset) at out.old out.new result }
{
    let next = put_bytes(out, at, b"bad ");
    put_with_end(offset, b'\n', out, next)
}
