// What the order of operations goes by: the operands of a record (document 01, "Order and dependence").
#![tactic(auto)]

ghost use Rattle.std.specs.Prelude.{◌≡◌};
ghost use Rattle.record_reader.specs.declared.Names.{Names};
ghost use Rattle.log_operands.specs.Code.Ordering.{Ordering, Sized, Told};
ghost use Rattle.log_operands.specs.Code.Reading.{plain, Limited, read};

use buffer::span::Span;
use record::kind::Kind;
use record_reader::{Head, Objects, Place, Range};
use record_valid::valid::stands;

// What the order of an operation goes by: so many of fields 0 to 3 and the objects of a part of its record as operands and, of an
// overwrite, where it writes.
#[derive(Clone, Copy)]
pub struct Order {
    pub count: usize,
    pub objects: Objects,
    pub listed: Span,
    pub overwrite: bool,
    pub offset: usize,
    pub len: usize,
}

// So many of fields 0 to 3, in their order, the objects of a part of the record, and no stretch.
fn first(count: usize, objects: Objects, listed: Span) -> Order
    ensures { result ≡ plain count objects listed }
{
    Order {
        count,
        objects,
        listed,
        overwrite: false,
        offset: 0,
        len: 0,
    }
}

// No operand: what is told where no valid record stands.
fn nothing(rec: &[u8]) -> Order
    ensures { Sized rec.now result }
{
    let objects = Objects {
        object: 0,
        parent: 0,
        second: 0,
        displaced: 0,
    };
    first(0, objects, Span { start: 0, len: 0 })
}

// "Operands: the object and every parent, displaced or listed object." By the kind, of the fields that were read.
fn order_from(rec: &[u8], head: Head, objects: Objects, range: Range) -> Order
    requires { Limited rec.now objects range }
    ensures told { (n : Names) → Ordering rec.now (read rec.now head objects n range) result }
    ensures sized { Sized rec.now result }
{
    let none = Span { start: 0, len: 0 };
    let kind = head.kind;
    match kind {
        Kind::CreateFile | Kind::MakeDirectory | Kind::Remove => first(2, objects, none),
        Kind::Rename => {
            if stands(head.map, 8) {
                return first(4, objects, none);
            }
            first(3, objects, none)
        },
        Kind::Overwrite => {
            let content = range.content;
            Order {
                overwrite: true,
                offset: range.offset,
                len: content.len,
                ..first(1, objects, none)
            }
        },
        Kind::Append | Kind::SetLength => first(1, objects, none),
        Kind::Forder => {
            let list = range.list;
            first(0, objects, list)
        },
    }
}

// The operands of the record that a slice begins with. Names are not read: the kinds that have them have no fields 6 to 8.
pub fn order_of(rec: &[u8]) -> Order
    ensures told { Told rec.now result }
    ensures sized { Sized rec.now result }
{
    let start = Place { at: 0 };
    let Some((head, p)) = start.head(rec) else {
        return nothing(rec);
    };
    let map = head.map;
    let Some((objects, q)) = p.objects(rec, map) else {
        return nothing(rec);
    };
    let Some((range, t)) = q.range(rec, map) else {
        return nothing(rec);
    };
    order_from(rec, head, objects, range)
}
