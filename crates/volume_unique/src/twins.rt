// "no two share parent and name".
ghost use Rattle.std.specs.Prelude.{◌≡◌, ◌<◌};
ghost use Rattle.volume_tree.specs.Form.{twins};
ghost use Rattle.volume_tree.specs.Stored.{read_volume};
ghost use Rattle.volume_tree.specs.Code.Lent.{Lent};
ghost use Rattle.volume_unique.specs.Code.Checks.{Gathered, Digested, alone_from, all_alone};

use names::same_name;
use volume_entry::field::name;
use volume_tree::entries::entry;
use volume_tree::numbers::every;
use volume_tree::search::is_child;

// Whether two entries share parent and name. Names are compared only where digests and parents agree.
#[tactic(auto, using(volume_tree::specs::Laws::Lent::entries))]
fn are_twins(
    s: &[u8],
    n: usize,
    b: usize,
    parents: &[usize; 256],
    digests: &[usize; 256],
    i: usize,
    j: usize,
) -> bool
    requires lent { Lent n b s.now }
    requires gathered { Gathered (read_volume n b s.now) parents.now }
    requires digested { Digested (read_volume n b s.now) digests.now }
    requires i_lt_n { (i < n) × (j < n) }
    ensures { result ≡ twins (read_volume n b s.now) i j }
{
    if digests[j] != digests[i] {
        return false;
    }
    let p = parents[i];
    if parents[j] != p {
        return false;
    }
    is_child(s, n, b, p, j)
        && is_child(s, n, b, p, i)
        && same_name(name(entry(s, n, b, i)), name(entry(s, n, b, j)))
}

// Whether no entry behind an entry shares parent and name with it.
fn is_alone(
    s: &[u8],
    n: usize,
    b: usize,
    parents: &[usize; 256],
    digests: &[usize; 256],
    i: usize,
) -> bool
    requires lent { Lent n b s.now }
    requires gathered { Gathered (read_volume n b s.now) parents.now }
    requires digested { Digested (read_volume n b s.now) digests.now }
    requires i_lt_n { i < n }
    ensures { result ≡ alone_from (read_volume n b s.now) i }
{
    if is_child(s, n, b, parents[i], i) {
        for j in i + 1..n {
            if are_twins(s, n, b, parents, digests, i, j) {
                return false;
            }
        }
    }
    true
}

// Whether no two entries share parent and name.
pub fn all_alone(
    s: &[u8],
    n: usize,
    b: usize,
    parents: &[usize; 256],
    digests: &[usize; 256],
) -> bool
    requires lent { Lent n b s.now }
    requires gathered { Gathered (read_volume n b s.now) parents.now }
    requires digested { Digested (read_volume n b s.now) digests.now }
    ensures { result ≡ all_alone (read_volume n b s.now) }
{
    every(n, |i| is_alone(s, n, b, parents, digests, i))
}
