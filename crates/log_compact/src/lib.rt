// Slots are freed, as document 01 asks that "Used slots come first" and "Free slots are zero": later slots move down by
// one and the last used one becomes zero.
#![tactic(auto)]

ghost use Rattle.std.specs.Prelude.{◌≡◌, ◌++◌, ◌+◌, ◌*◌, ◌-◌, ◌≤◌, ◌<◌, length, take, drop, replicate};
ghost use Rattle.buffer.specs.Patch.{patch};
ghost use Rattle.log_rules.specs.Stored.{slot_bytes, encode_slots};
ghost use Rattle.log_rules.specs.Code.Slots.{Slotted, slots_in, slot_part};
ghost use Rattle.log_rules.specs.Code.Flags.{kept};

use buffer::zero::clear;
use log_slots::SLOT;

// Takes out some bytes: those behind them move down to their place, and the last ones become zero. The loop has no exit, so that many
// bytes are moved at a time.
pub fn move_down(s: &mut [u8], at: usize, len: usize)
    requires { at + len ≤ length s.old }
    ensures { s.new ≡ take at s.old ++ (drop (at + len) s.old ++ replicate len 0) }
{
    let end = s.len() - len;
    for i in at..end {
        s[i] = s[i + len];
    }
    clear(&mut s[end..]);
}

// Frees one slot.
pub fn free_slot(s: &mut [u8], i: usize)
    requires slotted { Slotted s.old }
    requires i_in_bounds { i < length (slots_in s.old) }
    ensures { s.new
        ≡ encode_slots (take i (slots_in s.old) ++ drop (i + 1) (slots_in s.old)) ++ replicate slot_bytes 0 }
{
    move_down(s, i * SLOT, SLOT);
}

// Moves the bytes of one slot down to another's place; a slot that stands there already is not copied.
fn move_slot(s: &mut [u8], from: usize, to: usize)
    requires { (to ≤ from) × (from * slot_bytes + slot_bytes ≤ length s.old) }
    ensures { s.new ≡ patch s.old (to * slot_bytes) (slot_part s.old from) }
{
    if to == from {
        return;
    }
    let source = from * SLOT;
    let target = to * SLOT;
    for i in 0..SLOT {
        s[target + i] = s[source + i];
    }
}

// Frees every slot in a set, in one pass: each slot that is kept moves down to the first place that is left. How many are kept.
pub fn free_slots(s: &mut [u8], freed: &[u8]) -> usize
    requires slotted { Slotted s.old }
    requires s_in_bounds { length (slots_in s.old) ≤ length freed.now }
    ensures s_after { s.new
        ≡ encode_slots (kept freed.now (slots_in s.old)) ++ replicate ((length (slots_in s.old) - length (kept freed.now (slots_in s.old))) * slot_bytes) 0 }
    ensures value { result ≡ length (kept freed.now (slots_in s.old)) }
{
    let count = s.len() / SLOT;
    let mut write = 0;
    for read in 0..count {
        if freed[read] != 1 {
            move_slot(s, read, write);
            write += 1;
        }
    }
    let used = write * SLOT;
    clear(&mut s[used..]);
    write
}
