// Dependence (document 01, "Order and dependence"): one pass over the used slots, from the last to the first, with the set of the
// objects reached so far.
#![tactic(auto)]

pub mod reach;

ghost use Rattle.std.specs.Prelude.{◌≡◌, List, ℕ, ◌<◌, length};
ghost use Rattle.log_rules.specs.Stored.{encode_slots, encode_log, read_log};
ghost use Rattle.log_rules.specs.Depend.{reach, noted};
ghost use Rattle.log_rules.specs.Change.{note};
ghost use Rattle.log_rules.specs.Code.Slots.{slots_in, Slotted, Logged};
ghost use Rattle.log_rules.specs.Code.Flags.{Holds};
ghost use Rattle.log_dependence.specs.Code.Noted.{NotedAt};

use crate::reach::reach_slot;
use log_slots::head::used;
use log_slots::programs::with_program;
use log_slots::slot::{dependents, set_dependents};
use log_slots::{HEAD, SLOT};

// One slot: if it is reached, the program depends on its operation, and its operands are reached too.
fn note_slot(s: &mut [u8], i: usize, program: usize, reached: &mut [u8; 256])
    requires slotted { Slotted s.old }
    requires i_in_bounds { (i < length (slots_in s.old)) × (program < 32) }
    ensures { NotedAt program i s.old s.new reached.old reached.new }
{
    if reach_slot(s, i, reached) {
        let d = dependents(s, i);
        set_dependents(s, i, with_program(d, program));
    }
}

// The used slots after an accepted call of a program whose operands are in the set.
pub fn note_slots(s: &mut [u8], program: usize, reached: &mut [u8; 256])
    requires slotted { Slotted s.old }
    requires program_bound { program < 32 }
    requires by_index { (ops : List ℕ) × Holds reached.old ops }
    ensures by_index_2 { (ops : List ℕ) → Holds reached.old ops
        → s.new ≡ encode_slots (noted program ops (slots_in s.old)) }
    ensures by_index_3 { (ops : List ℕ) → Holds reached.old ops → Holds reached.new (reach ops (slots_in s.old)) }
{
    for i in (0..s.len() / SLOT).rev() {
        note_slot(s, i, program, reached);
    }
}

// The log after it.
pub fn note(log: &mut [u8], m: usize, program: usize, reached: &mut [u8; 256])
    requires logged { Logged 256 64 m log.old }
    requires program_bound { program < 32 }
    requires by_index { (ops : List ℕ) × Holds reached.old ops }
    ensures by_index_2 { (ops : List ℕ) → Holds reached.old ops
        → log.new ≡ encode_log m (note program ops (read_log m log.old)) }
    ensures by_index_3 { (ops : List ℕ) → Holds reached.old ops
        → Holds reached.new (reach ops (read_log m log.old).slots) }
{
    let end = HEAD + used(log, m) * SLOT;
    note_slots(&mut log[HEAD..end], program, reached);
}
