// The search of a used slot of a log that is lent as a slice, from the first slot on.
#![tactic(auto)]

ghost use Rattle.std.specs.Prelude.{◌≡◌, ◌<◌, ℕ, List, Bool, length};
ghost use Rattle.log_rules.specs.Slot.{Slot};
ghost use Rattle.log_rules.specs.Change.{is_sequence, is_loss_of};
ghost use Rattle.log_rules.specs.Code.Slots.{slots_in, slot_at, Slotted};
ghost use Rattle.log_find.specs.Code.Found.{FoundBy};

use log_slots::SLOT;
use log_slots::slot::{program, sequence, waits};

// Whether a slot holds the waiting operation of a sequence number.
fn is_sequence(s: &[u8], i: usize, q: usize) -> bool
    requires slotted { Slotted s.now }
    requires i_in_bounds { i < length (slots_in s.now) }
    ensures { result ≡ is_sequence q (slot_at (slots_in s.now) i) }
{
    waits(s, i) && sequence(s, i) == q
}

// Whether a slot holds a loss of a program.
fn is_loss_of(s: &[u8], i: usize, p: usize) -> bool
    requires slotted { Slotted s.now }
    requires i_in_bounds { i < length (slots_in s.now) }
    ensures { result ≡ is_loss_of p (slot_at (slots_in s.now) i) }
{
    !waits(s, i) && program(s, i) == p
}

// The first of so many slots that passes a test, by its position.
fn first_slot<F: Fn(usize) -> bool>(count: usize, test: F) -> Option<usize>
    requires { (i : ℕ) → i < count → F.pre test i }
    ensures { (f : Slot → Bool) (l : List Slot) → length l ≡ count
        → ((i : ℕ) (r : Bool) → i < count → F.post test i r → r ≡ f (slot_at l i)) → FoundBy f l result }
{
    for i in 0..count {
        if test(i) {
            return Some(i);
        }
    }
    None
}

// Where the waiting operation of a sequence number stands.
pub fn waiting_at(s: &[u8], q: usize) -> Option<usize>
    requires { Slotted s.now }
    ensures { FoundBy (is_sequence q) (slots_in s.now) result }
{
    first_slot(s.len() / SLOT, |i| is_sequence(s, i, q))
}

// Where "the earliest loss of a program" stands.
pub fn loss_of(s: &[u8], p: usize) -> Option<usize>
    requires { Slotted s.now }
    ensures { FoundBy (is_loss_of p) (slots_in s.now) result }
{
    first_slot(s.len() / SLOT, |i| is_loss_of(s, i, p))
}
