// What is reached from some objects, one slot after another from the last to the first: "directly or through a chain of touching
// operations".
ghost use Rattle.std.specs.Prelude.{◌<◌, length};
ghost use Rattle.log_rules.specs.Code.Slots.{slots_in, slot_at, Slotted};
ghost use Rattle.log_dependence.specs.Code.Reached.{Tried};

use log_operands::order_of;
use log_slots::slot::{recorded, waits};
use log_touch::set::{add, shares_any};

// Tries one slot: if its operation waits and has an operand among the objects reached, its operands are reached too.
pub fn reach_slot(s: &[u8], i: usize, reached: &mut [u8; 256]) -> bool
    requires slotted { Slotted s.now }
    requires i_in_bounds { i < length (slots_in s.now) }
    ensures { Tried (slot_at (slots_in s.now) i) reached.old reached.new result }
{
    if waits(s, i) {
        let rec = recorded(s, i);
        let o = order_of(rec);
        if shares_any(reached, rec, o) {
            add(reached, rec, o);
            return true;
        }
    }
    false
}
