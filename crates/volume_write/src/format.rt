// "Format makes a server volume with only a root", and the bulk copy by which mount and cut make the view.
ghost use Rattle.std.specs.Prelude.{◌≡◌, length};
ghost use Rattle.volume_tree.specs.Volume.{formatted};
ghost use Rattle.volume_tree.specs.Stored.{encode_volume};
ghost use Rattle.volume_tree.specs.Code.Lent.{Lent};

use buffer::put::put_bytes;
use buffer::zero::clear;

// Makes a volume with only a root.
pub fn format_volume(s: &mut [u8], n: usize, b: usize)
    requires { Lent n b s.old }
    ensures { s.new ≡ encode_volume b (formatted n) }
{
    clear(s);
    s[0] = 2;
}

// Copies a volume, every byte of it.
pub fn copy_volume(to: &mut [u8], from: &[u8])
    requires { length to.old ≡ length from.now }
    ensures { to.new ≡ from.now }
{
    put_bytes(to, 0, from);
}
