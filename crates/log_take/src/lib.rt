// "Take writes the earliest loss of a program and frees its slot", for the position where the loss was found; and "Renew clears its
// mark" (document 01, "Calls").
#![tactic(auto)]

ghost use Rattle.std.specs.Prelude.{◌≡◌, ◌≤◌, ◌<◌, length};
ghost use Rattle.log_rules.specs.Stored.{record_bytes, encode_log, read_log};
ghost use Rattle.log_rules.specs.Change.{renewed};
ghost use Rattle.log_rules.specs.Code.Slots.{slots_in, slot_at, Slotted, Logged, used_in};
ghost use Rattle.log_take.specs.Code.Taken.{Written, freed_at};

use buffer::put::put_bytes;
use log_compact::free_slot;
use log_slots::head::{marks, set_marks, used};
use log_slots::programs::without_program;
use log_slots::slot::recorded;
use log_slots::{HEAD, SLOT};
use record_reader::read_record;

// Writes the loss record of a slot at the start of a buffer, without the zeros that follow it in the slot; its length.
fn put_loss(s: &[u8], i: usize, own: &mut [u8]) -> usize
    requires slotted { Slotted s.now }
    requires i_in_bounds { i < length (slots_in s.now) }
    requires record_bytes_in_bounds { record_bytes ≤ length own.old }
    ensures { Written (slot_at (slots_in s.now) i).recorded own.old own.new result }
{
    let rec = recorded(s, i);
    let Some(w) = read_record(rec, 0) else {
        return 0;
    };
    let next = w.next;
    let len = next.at;
    put_bytes(own, 0, &rec[..len])
}

// Writes the loss record of a used slot of a log at the start of a buffer, and frees the slot; the record's length.
pub fn take(log: &mut [u8], m: usize, i: usize, own: &mut [u8]) -> usize
    requires logged { Logged 256 64 m log.old }
    requires i_bound { i < used_in m log.old }
    requires record_bytes_in_bounds { record_bytes ≤ length own.old }
    ensures written { Written (slot_at (read_log m log.old).slots i).recorded own.old own.new result }
    ensures log_after { log.new ≡ encode_log m (freed_at i (read_log m log.old)) }
{
    let end = HEAD + used(log, m) * SLOT;
    let len = put_loss(&log[HEAD..end], i, own);
    free_slot(&mut log[HEAD..end], i);
    len
}

// "Renew clears its mark."
pub fn renew(log: &mut [u8], m: usize, p: usize)
    requires logged { Logged 256 64 m log.old }
    requires p_bound { p < 32 }
    ensures { log.new ≡ encode_log m (renewed p (read_log m log.old)) }
{
    let left = without_program(marks(log, m), p);
    set_marks(log, m, left);
}
