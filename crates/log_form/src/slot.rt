// The form of one slot's bytes (document 01, "Geometry and stored form").
ghost use Rattle.std.specs.Prelude.{◌≡◌, ◌≤◌, length};
ghost use Rattle.record_reader.specs.Code.Reader.{record_at};
ghost use Rattle.log_rules.specs.Stored.{slot_bytes};
ghost use Rattle.log_form.specs.Code.Checks.{front_formed, form_by, slot_form};

use buffer::number::{byte_at, four_at};
use buffer::zero::all_zero;
use log_slots::{DEPENDENTS_AT, LOST, RECORD_END, RECORD_START, WAITING};
use record_reader::fit::fits;
use record_reader::read_record;

// Whether the bytes before the record are as a used slot has them: "3 zero bytes, dependents (4 ..; zero if lost)".
fn front_formed(e: &[u8]) -> bool
    requires { length e.now ≡ slot_bytes }
    ensures { result ≡ front_formed e.now }
{
    let state = byte_at(e, 0);
    all_zero(&e[1..DEPENDENTS_AT])
        && (state == WAITING || (state == LOST && four_at(e, DEPENDENTS_AT) == 0))
}

// What a used slot is by itself, its sequence number and whether it waits, if it is well formed. By its record's part: "a loss record" that fits n and b, and zeros.
fn record_formed(part: &[u8], n: usize, b: usize, waits: bool) -> Option<(usize, bool)>
    requires { b ≤ 64 }
    ensures { result ≡ form_by n b waits part.now (record_at part.now 0) }
{
    let Some(w) = read_record(part, 0) else {
        return None;
    };
    let end = w.next.at;
    if fits(part, w, n, b) && all_zero(&part[end..]) {
        return Some((w.head.sequence, waits));
    }
    None
}

// The form of a slot that is not free: its front, and its record's part.
pub fn slot_formed(e: &[u8], n: usize, b: usize) -> Option<(usize, bool)>
    requires b_bound { b ≤ 64 }
    requires e_len { length e.now ≡ slot_bytes }
    ensures { result ≡ slot_form n b e.now }
{
    if front_formed(e) {
        let waits = byte_at(e, 0) == WAITING;
        return record_formed(&e[RECORD_START..RECORD_END], n, b, waits);
    }
    None
}
