// Sets of objects: a byte an object, which is 1 where it is in the set.
ghost use Rattle.std.specs.Prelude.{◌≡◌, List, [], ◌∷◌, ◌++◌, ℕ, ◌<◌, ◌≤◌, take};
ghost use Rattle.record.specs.Operation.{Operation, operands};
ghost use Rattle.record.specs.Fields.{member, objects_of};
ghost use Rattle.log_rules.specs.Order.{shares};
ghost use Rattle.log_rules.specs.Code.Flags.{Holds};
ghost use Rattle.log_operands.specs.Code.Ordering.{fields_of, Small, Ordering, Sized};

use buffer::span::stretch_of;
use log_operands::Order;
use record_reader::Objects;
use record_valid::list::object_of;

// No object.
pub fn none() -> [u8; 256]
    ensures { Holds result [] }
{
    [0u8; 256]
}

// One object.
pub fn one(object: usize) -> [u8; 256]
    requires { object < 256 }
    ensures { Holds result (object ∷ []) }
{
    let mut set = [0u8; 256];
    set[object] = 1;
    set
}

// Puts one more object into a set.
pub fn add_object(set: &mut [u8; 256], object: usize)
    requires { object < 256 }
    ensures { (ops : List ℕ) → Holds set.old ops → Holds set.new (object ∷ ops) }
{
    let bytes: &mut [u8] = set;
    bytes[object] = 1;
}

// Puts into a set so many of fields 0 to 3.
fn add_fields(set: &mut [u8; 256], count: usize, f: Objects)
    requires { (count ≤ 4) × Small (fields_of f) }
    ensures { (ops : List ℕ) → Holds set.old ops → Holds set.new (take count (fields_of f) ++ ops) }
{
    let fields = [f.object, f.parent, f.second, f.displaced];
    for i in (0..count).rev() {
        add_object(set, fields[i]);
    }
}

// Puts the objects of a list into a set.
fn add_list(set: &mut [u8; 256], list: &[u8])
    requires { Small (objects_of list.now) }
    ensures { (ops : List ℕ) → Holds set.old ops → Holds set.new (objects_of list.now ++ ops) }
{
    for i in (0..list.len() / 2).rev() {
        add_object(set, object_of(list, i));
    }
}

// Puts the operands of an operation, whose record begins the slice, into a set.
pub fn add(set: &mut [u8; 256], rec: &[u8], o: Order)
    requires { Sized rec.now o }
    ensures { (p : Operation) (ops : List ℕ) → Ordering rec.now p o → Holds set.old ops → Holds set.new (operands p ++ ops) }
{
    let list = o.listed;
    add_list(set, stretch_of(rec, list.start, list.len));
    let objects = o.objects;
    add_fields(set, o.count, objects);
}

// Whether an object is in a set.
fn has(set: &[u8; 256], object: usize) -> bool
    requires { object < 256 }
    ensures { (ops : List ℕ) → Holds set.now ops → result ≡ member object ops }
{
    set[object] == 1
}

// Whether one of so many of fields 0 to 3 is in a set. They are tested one after the other, which is quicker than a loop.
fn shares_fields(set: &[u8; 256], count: usize, f: Objects) -> bool
    requires { (count ≤ 4) × Small (fields_of f) }
    ensures { (ops : List ℕ) → Holds set.now ops → result ≡ shares (take count (fields_of f)) ops }
{
    if count == 0 {
        return false;
    }
    if has(set, f.object) {
        return true;
    }
    if count == 1 {
        return false;
    }
    if has(set, f.parent) {
        return true;
    }
    if count == 2 {
        return false;
    }
    if has(set, f.second) {
        return true;
    }
    if count == 3 {
        return false;
    }
    has(set, f.displaced)
}

// Whether an object of a list is in a set.
fn shares_list(set: &[u8; 256], list: &[u8]) -> bool
    requires { Small (objects_of list.now) }
    ensures { (ops : List ℕ) → Holds set.now ops → result ≡ shares (objects_of list.now) ops }
{
    for i in 0..list.len() / 2 {
        if has(set, object_of(list, i)) {
            return true;
        }
    }
    false
}

// Whether an operand of an operation, whose record begins the slice, is in a set.
pub fn shares_any(set: &[u8; 256], rec: &[u8], o: Order) -> bool
    requires { Sized rec.now o }
    ensures { (p : Operation) (ops : List ℕ) → Ordering rec.now p o → Holds set.now ops → result ≡ shares (operands p) ops }
{
    let objects = o.objects;
    if shares_fields(set, o.count, objects) {
        return true;
    }
    let list = o.listed;
    if list.len == 0 {
        return false;
    }
    shares_list(set, stretch_of(rec, list.start, list.len))
}
