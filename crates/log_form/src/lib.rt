// The form of a log (document 01, "Geometry and stored form"), for any bytes.
#![tactic(auto)]

ghost use Rattle.std.specs.Prelude.{◌≡◌};
ghost use Rattle.log_rules.specs.Stored.{lent_log, formed_log};

pub mod slot;
pub mod used;

use crate::used::slots_formed;
use buffer::number::four_at;
use log_slots::{HEAD, NEXT_AT, SLOT};

// Whether n, b, m and the length are as document 01 has them: "n objects (2..256), b blocks a file (1..64) and m log slots
// (1..1,024)".
pub fn is_lent(s: &[u8], n: usize, b: usize, m: usize) -> bool
    ensures { result ≡ lent_log n b m s.now }
{
    2 <= n && n <= 256 && 1 <= b && b <= 64 && 1 <= m && m <= 1024 && s.len() == HEAD + m * SLOT
}

// Whether a slice is a well-formed log of m slots, for n objects and b blocks a file.
pub fn log_formed(s: &[u8], n: usize, b: usize, m: usize) -> bool
    ensures { result ≡ formed_log n b m s.now }
{
    if is_lent(s, n, b, m) {
        let next = four_at(s, NEXT_AT);
        if 1 <= next {
            return slots_formed(&s[HEAD..], n, b, m, next);
        }
    }
    false
}
