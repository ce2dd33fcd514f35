// Lists of objects, 2 bytes an object: field 8 of a record, and what forder is lent.
#![tactic(auto, using(crate::proofs::Lists::lists), unfolding(record::specs::Fields::valid_list, record::proofs::Laws::List::good_from))]

ghost use Rattle.std.specs.Prelude.{◌≡◌, ◌+◌, ◌<◌, ◌≤◌, length, get_or, drop};
ghost use Rattle.record.specs.Fields.{all_below, member, valid_list, objects_of};

use crate::valid::in_limits;
use buffer::number::two_at;

// The object at a position of a list.
pub fn object_of(list: &[u8], i: usize) -> usize
    requires { i + i + 1 < length list.now }
    ensures { (result ≡ get_or (objects_of list.now) i 0) × (result < 65536) }
{
    two_at(list, i + i)
}

// Whether an object stands in a list, from a position on.
fn listed_from(list: &[u8], from: usize, object: usize) -> bool
    requires { from ≤ length (objects_of list.now) }
    ensures { result ≡ member object (drop from (objects_of list.now)) }
{
    for i in from..list.len() / 2 {
        if object_of(list, i) == object {
            return true;
        }
    }
    false
}

// Whether a list holds 1..8 different objects, each at most 255.
pub fn good_list(list: &[u8]) -> bool
    ensures { result ≡ valid_list (objects_of list.now) }
{
    let count = list.len() / 2;
    if !in_limits(count, 1, 8) {
        return false;
    }
    for i in 0..count {
        let object = object_of(list, i);
        if 255 < object || listed_from(list, i + 1, object) {
            return false;
        }
    }
    true
}

// Whether every object of a list is below n.
pub fn list_below(list: &[u8], n: usize) -> bool
    ensures { result ≡ all_below n (objects_of list.now) }
{
    for i in 0..list.len() / 2 {
        if n <= object_of(list, i) {
            return false;
        }
    }
    true
}
