// What the program `losses` prints of the bytes that are at hand: a line for each record, and one for a bad record. All on
// lent slices; reading and writing are the program's.
#![tactic(auto)]

ghost use Rattle.std.specs.Prelude.{◌+◌, ◌*◌, ◌<◌, ◌≤◌, ◌^◌, length};
ghost use Rattle.losses_report.specs.Pass.{Passed};

use losses_line::{put_bad, put_line};
use record_reader::Place;

// The bytes of the longest record: where as many are at hand, whatever follows them changes nothing.
pub const LONGEST: usize = 1040;

// What is to be done after a pass.
#[derive(Clone, Copy)]
pub enum State {
    // More input is wanted: the bytes that are left may be the start of a record.
    Going,
    // Nothing more is to be told: the input has ended, or a bad record was met.
    Done,
}

// How many bytes of the input were passed, how many of the output were written, and how it goes on.
#[derive(Clone, Copy)]
pub struct Progress {
    pub next: usize,
    pub written: usize,
    pub state: State,
}

// Writes what the bytes at hand tell: the lines of their records, and that of a bad one. The first of them lies at the
// offset `base` of the input, and `ended` says that the last of them is the input's last.
pub fn pass(s: &[u8], base: usize, ended: bool, out: &mut [u8]) -> Progress
    requires s_bound { base + length s.now < 2 ^ 64 }
    requires s_in_bounds { 2 * length s.now + 25 ≤ length out.old }
    ensures { Passed s.now base ended out.old out.new result }
{
    let mut place = Place { at: 0 };
    let mut to = 0;
    while place.at < s.len() {
        let at = place.at;
        if !ended {
            if s.len() - at < LONGEST {
                return Progress {
                    next: at,
                    written: to,
                    state: State::Going,
                };
            }
        }
        let Some(w) = place.record(s) else {
            let end = put_bad(base + at, out, to);
            return Progress {
                next: at,
                written: end,
                state: State::Done,
            };
        };
        let head = w.head;
        let kind = head.kind;
        to = put_line(head.sequence, head.program, kind.code(), out, to);
        place = w.next;
    }
    let at = place.at;
    if ended {
        return Progress {
            next: at,
            written: to,
            state: State::Done,
        };
    }
    Progress {
        next: at,
        written: to,
        state: State::Going,
    }
}
