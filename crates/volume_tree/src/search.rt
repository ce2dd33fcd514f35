// The children of a directory: the search of a name, and whether there are any.
ghost use Rattle.std.specs.Prelude.{◌≡◌, ◌<◌};
ghost use Rattle.volume_tree.specs.Volume.{is_child, is_named, search, has_children};
ghost use Rattle.volume_tree.specs.Stored.{read_volume};
ghost use Rattle.volume_tree.specs.Code.Lent.{Lent};

use crate::entries::entry;
use crate::numbers::{every, lowest};
use names::same_name;
use volume_entry::field::{has_name, name, parent};

// Whether an entry is a child of a directory: "Entry 0 is nobody's child."
#[tactic(auto, using(crate::specs::Laws::Lent::entries))]
pub fn is_child(s: &[u8], n: usize, b: usize, d: usize, i: usize) -> bool
    requires lent { Lent n b s.now }
    requires i_lt_n { i < n }
    ensures { result ≡ is_child (read_volume n b s.now) d i }
{
    if i == 0 {
        return false;
    }
    let e = entry(s, n, b, i);
    has_name(e) && parent(e) == d
}

// Whether an entry is the child of a directory with a name. Names are compared only where parents agree.
#[tactic(auto, using(crate::specs::Laws::Lent::entries))]
fn is_named(s: &[u8], n: usize, b: usize, d: usize, wanted: &[u8], i: usize) -> bool
    requires lent { Lent n b s.now }
    requires i_lt_n { i < n }
    ensures { result ≡ is_named (read_volume n b s.now) d wanted.now i }
{
    is_child(s, n, b, d, i) && same_name(name(entry(s, n, b, i)), wanted)
}

// The object that a name leads to in a directory, if there is one.
pub fn search(s: &[u8], n: usize, b: usize, d: usize, wanted: &[u8]) -> Option<usize>
    requires { Lent n b s.now }
    ensures { result ≡ search (read_volume n b s.now) d wanted.now }
{
    let Some(found) = lowest(n, |i| is_named(s, n, b, d, wanted, i)) else {
        return None;
    };
    Some(found)
}

// Whether a directory has children.
pub fn has_children(s: &[u8], n: usize, b: usize, d: usize) -> bool
    requires { Lent n b s.now }
    ensures { result ≡ has_children (read_volume n b s.now) d }
{
    !every(n, |i| !is_child(s, n, b, d, i))
}
