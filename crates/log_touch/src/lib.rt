// What directly precedes what, by what is told of the earlier operation and the set of the operands of the later; and sets of objects
// (document 01, "Order and dependence").
#![tactic(auto)]

ghost use Rattle.std.specs.Prelude.{◌≡◌, ◌+◌, ◌≤◌};
ghost use Rattle.record.specs.Operation.{Operation};
ghost use Rattle.log_rules.specs.Order.{directly_precedes};
ghost use Rattle.log_operands.specs.Code.Ordering.{Ordering, Sized};
ghost use Rattle.log_touch.specs.Code.Later.{Later};

use crate::set::shares_any;
use log_operands::Order;

pub mod set;

// "A directly precedes B if it touches B and they are not two overwrites; two overwrites with a common byte are ordered too."
pub fn directly_precedes(
    rec: &[u8],
    a: Order,
    set: &[u8; 256],
    overwrite: bool,
    offset: usize,
    len: usize,
) -> bool
    requires sized { Sized rec.now a }
    requires len_bound { offset + len ≤ 8589934592 }
    ensures { (p q : Operation) → Ordering rec.now p a → Later q set.now overwrite offset len → result ≡ directly_precedes p q }
{
    if shares_any(set, rec, a) {
        if a.overwrite {
            if overwrite {
                if a.offset < offset + len {
                    return offset < a.offset + a.len;
                }
                return false;
            }
        }
        return true;
    }
    false
}
