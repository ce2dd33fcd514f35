// The used slots of a log, by their position: what is read of one, and what is written.
ghost use Rattle.std.specs.Prelude.{◌≡◌, ◌<◌, length, set};
ghost use Rattle.record.specs.Fields.{encode};
ghost use Rattle.volume_entry.specs.Stored.{padded};
ghost use Rattle.log_rules.specs.Slot.{lost, with_state, with_dependents, is_waiting, sequence_of};
ghost use Rattle.log_rules.specs.Stored.{slot_bytes, record_bytes, encode_slot, encode_slots};
ghost use Rattle.log_rules.specs.Code.Slots.{slots_in, slot_at, Slotted};

use crate::{DEPENDENTS_AT, LOST, RECORD_END, RECORD_START, SLOT, WAITING};
use buffer::number::{byte_at, four_at};
use buffer::put::put_four;

// The bytes of the slot at a position.
pub fn slot(s: &[u8], i: usize) -> &[u8]
    requires slotted { Slotted s.now }
    requires i_in_bounds { i < length (slots_in s.now) }
    ensures { (result.now ≡ encode_slot (slot_at (slots_in s.now) i)) × (length result.now ≡ slot_bytes) }
{
    let at = i * SLOT;
    let end = at + SLOT;
    &s[at..end]
}

// The loss record of a slot, as a part of the log; zeros follow it.
pub fn recorded(s: &[u8], i: usize) -> &[u8]
    requires slotted { Slotted s.now }
    requires i_in_bounds { i < length (slots_in s.now) }
    ensures { (result.now ≡ padded record_bytes (encode (slot_at (slots_in s.now) i).recorded)) × (length result.now ≡ record_bytes) }
{
    let e = slot(s, i);
    &e[RECORD_START..RECORD_END]
}

// Whether a slot's operation waits.
pub fn waits(s: &[u8], i: usize) -> bool
    requires slotted { Slotted s.now }
    requires i_in_bounds { i < length (slots_in s.now) }
    ensures { result ≡ is_waiting (slot_at (slots_in s.now) i) }
{
    let e = slot(s, i);
    byte_at(e, 0) == WAITING
}

// The programs that depend on a slot's operation.
pub fn dependents(s: &[u8], i: usize) -> usize
    requires slotted { Slotted s.now }
    requires i_in_bounds { i < length (slots_in s.now) }
    ensures { (result ≡ (slot_at (slots_in s.now) i).dependents) × (result < 4294967296) }
{
    four_at(slot(s, i), DEPENDENTS_AT)
}

// The sequence number of a slot's operation, behind the record's map.
pub fn sequence(s: &[u8], i: usize) -> usize
    requires slotted { Slotted s.now }
    requires i_in_bounds { i < length (slots_in s.now) }
    ensures { result ≡ sequence_of (slot_at (slots_in s.now) i) }
{
    four_at(slot(s, i), RECORD_START + 2)
}

// The program that issued a slot's operation, behind the record's sequence number.
pub fn program(s: &[u8], i: usize) -> usize
    requires slotted { Slotted s.now }
    requires i_in_bounds { i < length (slots_in s.now) }
    ensures { result ≡ (slot_at (slots_in s.now) i).recorded.program }
{
    byte_at(slot(s, i), RECORD_START + 6)
}

// Writes a slot's dependents.
pub fn set_dependents(s: &mut [u8], i: usize, d: usize)
    requires slotted { Slotted s.old }
    requires i_in_bounds { i < length (slots_in s.old) }
    ensures { s.new ≡ encode_slots (set (slots_in s.old) i (with_dependents d (slot_at (slots_in s.old) i))) }
{
    put_four(s, i * SLOT + DEPENDENTS_AT, d);
}

// Makes a slot's operation a lost one, on which nobody depends any more.
pub fn set_lost(s: &mut [u8], i: usize)
    requires slotted { Slotted s.old }
    requires i_in_bounds { i < length (slots_in s.old) }
    ensures { s.new
        ≡ encode_slots (set (slots_in s.old) i (with_state lost (with_dependents 0 (slot_at (slots_in s.old) i)))) }
{
    let next = put_four(s, i * SLOT, LOST);
    put_four(s, next, 0);
}
