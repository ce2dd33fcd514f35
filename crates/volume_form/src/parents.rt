// The parents: "a used directory as parent, the parents lead to 0".
ghost use Rattle.std.specs.Prelude.{◌≡◌, ◌≤◌, ◌<◌};
ghost use Rattle.volume_tree.specs.Stored.{read_volume};
ghost use Rattle.volume_tree.specs.Code.Lent.{Lent};
ghost use Rattle.volume_unique.specs.Code.Checks.{Gathered};
ghost use Rattle.volume_form.specs.Code.Checks.{Numbers, parented, parents_formed, climbs_by, all_lead};

use volume_entry::field::{has_name, is_directory, parent};
use volume_tree::entries::entry;
use volume_tree::numbers::every;

// Whether an entry is the root, has no name, or has a used directory as parent.
#[tactic(auto, using(volume_tree::specs::Laws::Lent::entries))]
fn is_parented(s: &[u8], n: usize, b: usize, i: usize) -> bool
    requires lent { Lent n b s.now }
    requires i_lt_n { i < n }
    ensures { result ≡ parented (read_volume n b s.now) i }
{
    if i == 0 {
        return true;
    }
    let e = entry(s, n, b, i);
    if has_name(e) {
        let p = parent(e);
        if p < n {
            return is_directory(entry(s, n, b, p));
        }
        return false;
    }
    true
}

// Whether every entry with a name, other than the root, has a used directory as parent.
pub fn parents_formed(s: &[u8], n: usize, b: usize) -> bool
    requires { Lent n b s.now }
    ensures { result ≡ parents_formed (read_volume n b s.now) }
{
    every(n, |i| is_parented(s, n, b, i))
}

// Every entry's parent, gathered so that the later tests do not go through the volume again.
pub fn parents_of(s: &[u8], n: usize, b: usize) -> [usize; 256]
    requires { Lent n b s.now }
    ensures { Gathered (read_volume n b s.now) result }
{
    let mut parents = [0usize; 256];
    for i in 0..n {
        parents[i] = parent(entry(s, n, b, i));
    }
    parents
}

// Whether an entry's parents lead to 0 in at most n steps.
fn leads(parents: &[usize; 256], n: usize, i: usize) -> bool
    requires i_bound { i < 256 }
    requires numbers { Numbers parents.now }
    ensures { result ≡ climbs_by n parents.now i }
{
    let mut at = i;
    for _ in 0..n {
        if at == 0 {
            return true;
        }
        at = parents[at];
    }
    at == 0
}

// Whether every entry's parents lead to 0: at most n² steps.
pub fn all_lead(parents: &[usize; 256], n: usize) -> bool
    requires n_bound { n ≤ 256 }
    requires numbers { Numbers parents.now }
    ensures { result ≡ all_lead n parents.now }
{
    every(n, |i| leads(parents, n, i))
}
