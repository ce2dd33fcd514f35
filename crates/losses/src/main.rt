// Reads loss records from standard input and prints sequence, program and kind of each, a line each.
#![tactic(auto)]

ghost use Rattle.std.specs.Prelude.{◌+◌, ◌*◌, ◌≤◌, OnOk, length};
ghost use Rattle.losses_report.specs.Pass.{longest};
ghost use Rattle.losses.specs.Reported.{Reported};

use losses_report::{State, pass};
use std::io::{self, Read, Write};
use text::input::refill;
use text::rest::keep_rest;

// Goes through the input, a pass after each read, until a pass is done (`Run` of the crate `losses_report`). An offset is
// exact for any input whose length a usize holds; at a longer one it stops there. A read or a write that fails ends it too, with
// its own error: the passes before it have been written then, and after a write that fails the output is for the writer to say.
fn run<R: Read, W: Write>(
    input: &mut R,
    output: &mut W,
    buf: &mut [u8],
    out: &mut [u8],
) -> io::Result<()>
    requires { (longest ≤ length buf.old) × (2 * length buf.old + 25 ≤ length out.old) }
    ensures { OnOk result (Reported (R.remaining input.old) (W.contents output.old) (W.contents output.new)) }
{
    let mut base: usize = 0;
    let mut held: usize = 0;
    loop {
        let got = refill(input, buf, held)?;
        if usize::MAX - base - held < got {
            return Ok(());
        }
        held += got;
        let told = pass(&buf[..held], base, got == 0, out);
        output.write_all(&out[..told.written])?;
        let State::Going = told.state else {
            return Ok(());
        };
        keep_rest(buf, told.next, held);
        base += told.next;
        held -= told.next;
    }
}

// Two bytes of output are enough for each byte of input, and 25 for the line of a bad record.
fn main(rt: HostRuntime) -> io::Result<()> {
    let mut buf = [0u8; 65536];
    let mut out = [0u8; 131097];
    run(&mut rt.stdin(), &mut rt.stdout(), &mut buf, &mut out)
}
