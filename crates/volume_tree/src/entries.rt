// The entries of a volume that is lent as a slice.
ghost use Rattle.std.specs.Prelude.{◌≡◌, ◌<◌};
ghost use Rattle.volume_tree.specs.Stored.{lent};
ghost use Rattle.volume_tree.specs.Code.Lent.{Lent, IsEntry};

use buffer::BLOCK;
use volume_entry::DATA_AT;

// Whether n, b and the length are as document 01 has them: "n objects (2..256), b blocks a file (1..64)".
#[tactic(auto, unfolding(crate::specs::Stored::lent))]
pub fn is_lent(s: &[u8], n: usize, b: usize) -> bool
    ensures { result ≡ lent n b s.now }
{
    2 <= n && n <= 256 && 1 <= b && b <= 64 && s.len() == n * (DATA_AT + BLOCK * b)
}

// The entry of an object's number, as a part of the volume.
pub fn entry(s: &[u8], n: usize, b: usize, i: usize) -> &[u8]
    requires lent { Lent n b s.now }
    requires i_lt_n { i < n }
    ensures { IsEntry n b s.now i result.now }
{
    let size = DATA_AT + BLOCK * b;
    let at = i * size;
    let end = at + size;
    &s[at..end]
}
