// The head of a log, and how many of its slots are used.
ghost use Rattle.std.specs.Prelude.{◌≡◌, ℕ, ◌≤◌, ◌<◌, length};
ghost use Rattle.log_rules.specs.Programs.{holds};
ghost use Rattle.log_rules.specs.Stored.{log_bytes, encode_log, read_log};
ghost use Rattle.log_rules.specs.Slot.{with_marks};
ghost use Rattle.log_rules.specs.Code.Slots.{used_in, Logged};

use crate::programs::is_in;
use crate::{FREE, HEAD, MARKS_AT, NEXT_AT, SLOT};
use buffer::number::{byte_at, four_at};
use buffer::put::put_four;

// The next sequence number.
pub fn next_number(s: &[u8], m: usize) -> usize
    requires { length s.now ≡ log_bytes m }
    ensures { (result ≡ (read_log m s.now).head.next) × (result < 4294967296) }
{
    four_at(s, NEXT_AT)
}

// The marked programs.
pub fn marks(s: &[u8], m: usize) -> usize
    requires { length s.now ≡ log_bytes m }
    ensures { (result ≡ (read_log m s.now).head.marks) × (result < 4294967296) }
{
    four_at(s, MARKS_AT)
}

// Whether a program is marked.
pub fn is_marked(log: &[u8], m: usize, p: usize) -> bool
    requires log_len { length log.now ≡ log_bytes m }
    requires p_bound { p < 32 }
    ensures { result ≡ holds (read_log m log.now).head.marks p }
{
    is_in(marks(log, m), p)
}

// Writes the marked programs.
pub fn set_marks(s: &mut [u8], m: usize, v: usize)
    requires { length s.old ≡ log_bytes m }
    ensures { (n b : ℕ) → Logged n b m s.old → s.new ≡ encode_log m (with_marks v (read_log m s.old)) }
{
    put_four(s, MARKS_AT, v);
}

// How many slots are used: "Used slots come first".
pub fn used(s: &[u8], m: usize) -> usize
    requires { (m ≤ 1024) × (length s.now ≡ log_bytes m) }
    ensures { (result ≤ m) × ((n b : ℕ) → Logged n b m s.now → result ≡ used_in m s.now) }
{
    for i in 0..m {
        if byte_at(s, HEAD + i * SLOT) == FREE {
            return i;
        }
    }
    m
}
