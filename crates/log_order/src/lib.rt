// The precedence test and the operations that fsync needs (document 01, "Order and dependence"). Both go through the candidates
// of a slot, which are the slots before a position, by recursion: "the candidate's sequence number falls at each call". A call
// tries a run of up to 64 candidates, so at most m / 64 + 1 calls, rounded up, stand inside each other: 17 at m = 1,024.
#![tactic(auto)]

ghost use Rattle.std.specs.Prelude.{◌≡◌, ℕ, ◌+◌, ◌-◌, ◌≤◌, ◌<◌, Bool, List, length, take, drop};
ghost use Rattle.std.proofs.Math.Seq.{slice};
ghost use Rattle.record.specs.Operation.{Operation, Record};
ghost use Rattle.log_rules.specs.Slot.{sequence_of};
ghost use Rattle.log_rules.specs.Order.{preceded, needed};
ghost use Rattle.log_rules.specs.Change.{waiting_of};
ghost use Rattle.log_rules.proofs.Laws.Order.{Rising};
ghost use Rattle.log_rules.specs.Code.Slots.{slots_in, slot_at, Slotted};
ghost use Rattle.log_rules.specs.Code.Flags.{Holds, chosen, AllWait};
ghost use Rattle.log_touch.specs.Code.Later.{Later};
ghost use Rattle.log_order.specs.Code.Candidates.{waits_before, some_before};
ghost use Rattle.log_order.specs.Code.Closed.{some_after, found_in, FoundAt, ClosedMore, Picked, Closure};
ghost use Rattle.log_operands.specs.Code.Ordering.{Ordering, Sized};

use buffer::zero::clear;
use log_operands::{Order, order_of};
use log_slots::SLOT;
use log_slots::slot::{recorded, waits};
use log_touch::directly_precedes;
use log_touch::set::{add, none, one, shares_any};

// How many candidates a call tries before it goes on to the earlier ones.
const RUN: usize = 64;

// Where the run of candidates before a position begins.
fn run_start(i: usize) -> usize
    ensures { result ≡ i - 64 }
{
    if i < RUN {
        return 0;
    }
    i - RUN
}

// Whether one candidate waits and directly precedes an operation.
fn precedes_at(
    s: &[u8],
    j: usize,
    set: &[u8; 256],
    overwrite: bool,
    offset: usize,
    len: usize,
) -> bool
    requires slotted { Slotted s.now }
    requires j_in_bounds { (j < length (slots_in s.now)) × (offset + len ≤ 8589934592) }
    ensures { (q : Operation) → Later q set.now overwrite offset len → result ≡ waits_before q (slot_at (slots_in s.now) j) }
{
    if waits(s, j) {
        let rec = recorded(s, j);
        return directly_precedes(rec, order_of(rec), set, overwrite, offset, len);
    }
    false
}

// Whether the operation of one of the slots from a position up to another waits and directly precedes an operation.
fn run_precedes(
    s: &[u8],
    from: usize,
    to: usize,
    set: &[u8; 256],
    overwrite: bool,
    offset: usize,
    len: usize,
) -> bool
    requires slotted { Slotted s.now }
    requires from_le_to { (from ≤ to) × (to ≤ length (slots_in s.now)) × (offset + len ≤ 8589934592) }
    ensures { (q : Operation) → Later q set.now overwrite offset len → result ≡ some_before q (slice from to (slots_in s.now)) }
{
    for j in from..to {
        if precedes_at(s, j, set, overwrite, offset, len) {
            return true;
        }
    }
    false
}

// Whether one of the first i slots' operations waits and directly precedes an operation.
fn some_precedes(
    s: &[u8],
    i: usize,
    set: &[u8; 256],
    overwrite: bool,
    offset: usize,
    len: usize,
) -> bool
    requires slotted { Slotted s.now }
    requires i_in_bounds { (i ≤ length (slots_in s.now)) × (offset + len ≤ 8589934592) }
    ensures { (q : Operation) → Later q set.now overwrite offset len → result ≡ some_before q (take i (slots_in s.now)) }
{
    if i == 0 {
        return false;
    }
    let from = run_start(i);
    if run_precedes(s, from, i, set, overwrite, offset, len) {
        return true;
    }
    some_precedes(s, from, set, overwrite, offset, len)
}

// "a predecessor waits": whether a waiting operation precedes that of a slot, directly or through others. The direct test of
// the earlier slots decides it.
pub fn is_preceded(s: &[u8], i: usize) -> bool
    requires slotted { Slotted s.now }
    requires i_in_bounds { i < length (slots_in s.now) }
    requires rising { Rising sequence_of (slots_in s.now) }
    ensures { result ≡ preceded (waiting_of (slots_in s.now)) (slot_at (slots_in s.now) i).recorded }
{
    let rec = recorded(s, i);
    let o = order_of(rec);
    let mut set = none();
    add(&mut set, rec, o);
    some_precedes(s, i, &set, o.overwrite, o.offset, o.len)
}

// Whether an operation, whose record begins the slice, directly precedes one of those found from a position on. Of two operations
// each directly precedes the other or none does.
fn precedes_found(s: &[u8], from: usize, found: &[u8], rec: &[u8], o: Order) -> bool
    requires slotted { Slotted s.now }
    requires from_in_bounds { (from ≤ length (slots_in s.now)) × (length (slots_in s.now) ≤ length found.now) × Sized rec.now o }
    ensures { (a : Operation) → Ordering rec.now a o
        → result ≡ some_after a (chosen (drop from found.now) (drop from (slots_in s.now))) }
{
    let mut set = none();
    add(&mut set, rec, o);
    for j in from..s.len() / SLOT {
        if found[j] == 1 {
            let later = recorded(s, j);
            if directly_precedes(later, order_of(later), &set, o.overwrite, o.offset, o.len) {
                return true;
            }
        }
    }
    false
}

// Whether the operation of a waiting slot, whose record begins the slice, is found: it is picked, shares a given object, or directly
// precedes one of those found behind it. Only of an overwrite that shares no operand with another kind are pairs asked.
fn is_found(
    s: &[u8],
    j: usize,
    found: &[u8],
    all: &[u8; 256],
    others: &[u8; 256],
    rec: &[u8],
    o: Order,
) -> bool
    requires slotted { Slotted s.now }
    requires j_in_bounds { (j < length (slots_in s.now)) × (length (slots_in s.now) ≤ length found.now) × Sized rec.now o }
    requires rising { Rising sequence_of (slots_in s.now) }
    ensures { FoundAt (slots_in s.now) j found.now all.now others.now rec.now o result }
{
    if found[j] == 1 {
        return true;
    }
    if shares_any(all, rec, o) {
        if o.overwrite {
            if shares_any(others, rec, o) {
                return true;
            }
            return precedes_found(s, j + 1, found, rec, o);
        }
        return true;
    }
    false
}

// A turn of the pass: sets the flag of one slot, and puts its operands into the sets if it is found. How many were found.
fn close_slot(
    s: &[u8],
    j: usize,
    found: &mut [u8],
    all: &mut [u8; 256],
    others: &mut [u8; 256],
) -> usize
    requires slotted { Slotted s.now }
    requires j_in_bounds { (j < length (slots_in s.now)) × (length (slots_in s.now) ≤ length found.old) }
    requires rising { Rising sequence_of (slots_in s.now) }
    ensures { ClosedMore (slots_in s.now) (j + 1) j found.old all.old others.old found.new all.new others.new result }
{
    if waits(s, j) {
        let rec = recorded(s, j);
        let o = order_of(rec);
        if is_found(s, j, found, all, others, rec, o) {
            found[j] = 1;
            add(all, rec, o);
            if o.overwrite {
                return 1;
            }
            add(others, rec, o);
            return 1;
        }
    }
    found[j] = 0;
    0
}

// The turns from one position down to another.
fn close_run(
    s: &[u8],
    from: usize,
    to: usize,
    found: &mut [u8],
    all: &mut [u8; 256],
    others: &mut [u8; 256],
) -> usize
    requires slotted { Slotted s.now }
    requires from_le_to { (from ≤ to) × (to ≤ length (slots_in s.now)) × (length (slots_in s.now) ≤ length found.old) }
    requires rising { Rising sequence_of (slots_in s.now) }
    ensures { ClosedMore (slots_in s.now) to from found.old all.old others.old found.new all.new others.new result }
{
    let mut count = 0;
    for j in (from..to).rev() {
        count += close_slot(s, j, found, all, others);
    }
    count
}

// The turns of the first i slots.
fn close(s: &[u8], i: usize, found: &mut [u8], all: &mut [u8; 256], others: &mut [u8; 256]) -> usize
    requires slotted { Slotted s.now }
    requires i_in_bounds { (i ≤ length (slots_in s.now)) × (length (slots_in s.now) ≤ length found.old) }
    requires rising { Rising sequence_of (slots_in s.now) }
    ensures { ClosedMore (slots_in s.now) i 0 found.old all.old others.old found.new all.new others.new result }
{
    if i == 0 {
        return 0;
    }
    let from = run_start(i);
    let count = close_run(s, from, i, found, all, others);
    count + close(s, from, found, all, others)
}

// The operations that are picked, by a flag of 1, or have an operand in a set, and their predecessors: a flag for each slot, and how
// many they are.
pub fn closed(s: &[u8], found: &mut [u8], given: [u8; 256]) -> usize
    requires slotted { Slotted s.now }
    requires s_in_bounds { length (slots_in s.now) ≤ length found.old }
    requires rising { Rising sequence_of (slots_in s.now) }
    ensures { (pick : Record → Bool) (ops : List ℕ) → Holds given ops → Picked pick (slots_in s.now) found.old
        → Closure (found_in pick ops (slots_in s.now)) (slots_in s.now) found.new result }
{
    let mut all = given;
    let mut others = given;
    close(s, s.len() / SLOT, found, &mut all, &mut others)
}

// "It needs d sends: all waiting operations with that object as operand and their predecessors": a flag for each slot, and d.
pub fn needed(s: &[u8], object: usize, found: &mut [u8]) -> usize
    requires slotted { Slotted s.now }
    requires object_bound { (object < 256) × (length (slots_in s.now) ≤ length found.old) }
    requires rising { Rising sequence_of (slots_in s.now) }
    ensures these { chosen found.new (slots_in s.now) ≡ needed object (waiting_of (slots_in s.now)) }
    ensures wait { AllWait found.new (slots_in s.now) }
    ensures count { result ≡ length (needed object (waiting_of (slots_in s.now))) }
{
    clear(found);
    closed(s, found, one(object))
}
