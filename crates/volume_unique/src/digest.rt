// A digest of every name, the same for each spelling of it: names of different digests differ, so that few pairs of names are
// compared byte for byte.
ghost use Rattle.std.specs.Prelude.{◌≡◌};
ghost use Rattle.volume_tree.specs.Stored.{read_volume};
ghost use Rattle.volume_tree.specs.Code.Lent.{Lent};
ghost use Rattle.volume_unique.specs.Code.Checks.{digest, Digested};

use buffer::number::byte_at;
use volume_entry::field::name;
use volume_tree::entries::entry;

// The digest of a name. A letter's two cases differ by 32, so that both have one remainder by 32.
fn digest_of(name: &[u8]) -> usize
    ensures { result ≡ digest name.now }
{
    let mut seen = 0;
    for i in 0..name.len() {
        seen = seen % 4294967296 * 31 + byte_at(name, i) % 32;
    }
    seen
}

// The digest of every entry's name.
pub fn digests_of(s: &[u8], n: usize, b: usize) -> [usize; 256]
    requires { Lent n b s.now }
    ensures { Digested (read_volume n b s.now) result }
{
    let mut digests = [0usize; 256];
    for i in 0..n {
        digests[i] = digest_of(name(entry(s, n, b, i)));
    }
    digests
}
