// "Cut turns all waiting ones into lost ones, marks the dependents" (document 01, "Calls"): the slots, and the marks in the log's head.
#![tactic(auto)]

ghost use Rattle.std.specs.Prelude.{◌≡◌, map, cond, ◌<◌, length, set};
ghost use Rattle.log_rules.specs.Slot.{is_waiting};
ghost use Rattle.log_rules.specs.Stored.{encode_slots, encode_log, read_log};
ghost use Rattle.log_rules.specs.Change.{discarded, dependents_of, discard};
ghost use Rattle.log_rules.specs.Code.Slots.{slots_in, slot_at, Slotted, Logged};

use log_slots::head::{marks, set_marks, used};
use log_slots::programs::union_of;
use log_slots::slot::{dependents, set_lost, waits};
use log_slots::{HEAD, SLOT};

// A waiting slot becomes a lost one, on which nobody depends, and its dependents are answered; a lost one stays, and 0 is answered.
fn discard_slot(s: &mut [u8], i: usize) -> usize
    requires slotted { Slotted s.old }
    requires i_in_bounds { i < length (slots_in s.old) }
    ensures { (s.new ≡ encode_slots (set (slots_in s.old) i (discarded (slot_at (slots_in s.old) i))))
        × (result ≡ cond (is_waiting (slot_at (slots_in s.old) i)) (slot_at (slots_in s.old) i).dependents 0)
        × (result < 4294967296) }
{
    if waits(s, i) {
        let found = dependents(s, i);
        set_lost(s, i);
        return found;
    }
    0
}

// All slots, from the last to the first, and the programs that depend on those that waited.
pub fn discard_slots(s: &mut [u8]) -> usize
    requires { Slotted s.old }
    ensures { (s.new ≡ encode_slots (map discarded (slots_in s.old))) × (result
        ≡ dependents_of (slots_in s.old)) × (result < 4294967296) }
{
    let mut found = 0;
    for i in (0..s.len() / SLOT).rev() {
        found = union_of(discard_slot(s, i), found);
    }
    found
}

// Turns all waiting operations of a log into lost ones, and marks the programs that depended on them.
pub fn discard(log: &mut [u8], m: usize)
    requires { Logged 256 64 m log.old }
    ensures { log.new ≡ encode_log m (discard (read_log m log.old)) }
{
    let end = HEAD + used(log, m) * SLOT;
    let found = discard_slots(&mut log[HEAD..end]);
    let all = union_of(marks(log, m), found);
    set_marks(log, m, all);
}
