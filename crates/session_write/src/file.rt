// The length of a file that a call names by its number.
ghost use Rattle.std.specs.Prelude.{◌≡◌, length};
ghost use Rattle.volume_entry.specs.Entry.{contents_of};
ghost use Rattle.volume_tree.specs.Volume.{entry_at};
ghost use Rattle.volume_tree.specs.Stored.{read_volume};
ghost use Rattle.volume_tree.specs.Code.Lent.{Lent};

use volume_entry::field::contents;
use volume_tree::entries::entry;

// A file's length; 0 of an object n or more.
pub fn length_of(view: &[u8], n: usize, b: usize, object: usize) -> usize
    requires { Lent n b view.now }
    ensures { result ≡ length (contents_of (entry_at (read_volume n b view.now) object)) }
{
    if n <= object {
        return 0;
    }
    contents(entry(view, n, b, object)).len()
}
