// The form of a log's slots: "Used slots come first, in rising sequence, the lost before the waiting, all below the next number".
ghost use Rattle.std.specs.Prelude.{◌≡◌, ◌*◌, ◌≤◌, length, false};
ghost use Rattle.log_rules.specs.Stored.{slot_bytes};
ghost use Rattle.log_form.specs.Code.Checks.{may_follow, slots_formed};

use crate::slot::slot_formed;
use buffer::number::byte_at;
use buffer::zero::all_zero;
use log_slots::{FREE, SLOT};

// Whether a slot with its sequence number, waiting or not, may come behind another, the last.
fn may_follow(next: usize, last: usize, waits: bool, sequence: usize, waiting: bool) -> bool
    ensures { result ≡ may_follow next last waits sequence waiting }
{
    last < sequence && sequence < next && (!waits || waiting)
}

// Whether the slots are well formed: each up to the first free one, and zeros from there on.
pub fn slots_formed(s: &[u8], n: usize, b: usize, m: usize, next: usize) -> bool
    requires b_bound { b ≤ 64 }
    requires s_len { length s.now ≡ m * slot_bytes }
    ensures { result ≡ slots_formed n b next m 0 false s.now }
{
    let mut last = 0;
    let mut waits = false;
    for i in 0..m {
        let at = i * SLOT;
        if byte_at(s, at) == FREE {
            return all_zero(&s[at..]);
        }
        let Some((sequence, waiting)) = slot_formed(&s[at..at + SLOT], n, b) else {
            return false;
        };
        if !may_follow(next, last, waits, sequence, waiting) {
            return false;
        }
        last = sequence;
        waits = waiting;
    }
    true
}
