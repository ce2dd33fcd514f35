// The form of each entry by itself: kind, name, length, and zeros where nothing is in use.
ghost use Rattle.std.specs.Prelude.{◌≡◌, ◌<◌, ◌||◌, eqb};
ghost use Rattle.volume_entry_form.specs.Code.Check;
ghost use Rattle.volume_tree.specs.Code.Lent.{Lent, entry_part};
ghost use Rattle.volume_form.specs.Code.Checks.{entries_formed};

use volume_entry_form::{entry_formed, root_formed};
use volume_tree::entries::entry;
use volume_tree::numbers::every;

// Whether an entry is the root or is well formed by itself.
fn is_formed(s: &[u8], n: usize, b: usize, i: usize) -> bool
    requires lent { Lent n b s.now }
    requires i_lt_n { i < n }
    ensures { result ≡ (eqb i 0 || Check.entry_formed b (entry_part b s.now i)) }
{
    if i == 0 {
        return true;
    }
    entry_formed(entry(s, n, b, i), b)
}

// Whether the root and each other entry are well formed by themselves.
pub fn entries_formed(s: &[u8], n: usize, b: usize) -> bool
    requires { Lent n b s.now }
    ensures { result ≡ entries_formed n b s.now }
{
    if root_formed(entry(s, n, b, 0)) {
        return every(n, |i| is_formed(s, n, b, i));
    }
    false
}
