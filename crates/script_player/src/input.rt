// The lines of a script, from an input.
ghost use Rattle.std.specs.Prelude.{◌<◌, ◌≤◌, IfOk, OnErr, length, take, drop};
ghost use Rattle.script_player.specs.Line.{coming, Taken, Unfinished};

use script_arguments::line::LONGEST;
use script_words::word::until;
use std::io::{self, Read};
use text::input::refill;
use text::rest::keep_rest;

// Where a line stands in the buffer, where the next one begins, how many bytes are held, and whether it is the last.
#[derive(Clone, Copy)]
pub struct Line {
    pub start: usize,
    pub end: usize,
    pub next: usize,
    pub held: usize,
    pub last: bool,
}

// Finds the next line behind a place, and reads on where the bytes held have no newline. The last line may lack it; a line that is
// too long already is the last too. Fails where a read does, with that read's error, and loses no byte then.
pub fn next_line<R: Read>(input: &mut R, buf: &mut [u8], from: usize, to: usize) -> io::Result<Line>
    requires { (from ≤ to) × (to ≤ length buf.old) × (8191 < length buf.old) }
    ensures within { IfOk result (λ line. (line.start ≤ line.end) × (line.end ≤ line.held) × (line.next ≤ line.held) × (line.held ≤ length buf.old)) }
    ensures taken { IfOk result (λ line. Taken (coming buf.old from to (R.remaining input.old)) (R.remaining input.new) buf.new line) }
    ensures left { OnErr result (Unfinished (drop from (take to buf.old)) (R.remaining input.old) (R.remaining input.new) buf.new) }
{
    let mut at = from;
    let mut held = to;
    loop {
        let end = at + until(&buf[at..held], b'\n');
        if end < held {
            return Ok(Line {
                start: at,
                end,
                next: end + 1,
                held,
                last: false,
            });
        }
        if LONGEST < held - at {
            return Ok(Line {
                start: at,
                end: held,
                next: held,
                held,
                last: true,
            });
        }
        keep_rest(buf, at, held);
        held -= at;
        at = 0;
        let got = refill(input, buf, held)?;
        if got == 0 {
            return Ok(Line {
                start: 0,
                end: held,
                next: held,
                held,
                last: true,
            });
        }
        held += got;
    }
}
