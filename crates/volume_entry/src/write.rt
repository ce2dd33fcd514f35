// What is written of an entry.
ghost use Rattle.std.specs.Prelude.{◌≡◌, ◌≤◌, length};
ghost use Rattle.names.specs.Name.{longest_name};
ghost use Rattle.volume_entry.specs.Stored.{length_at};
ghost use Rattle.volume_entry.specs.Write.{head_field};

use buffer::put::{put_bytes, put_one, put_two};
use buffer::zero::clear;

// Writes an entry's head, lent as the 64 bytes that it has: kind, name length, parent, name, and zeros behind the name.
pub fn put_head(head: &mut [u8], kind: usize, parent: usize, name: &[u8])
    requires head_len { length head.old ≡ length_at }
    requires name_len_bound { length name.now ≤ longest_name }
    ensures { head.new ≡ head_field kind parent name.now }
{
    let a = put_one(head, 0, kind);
    let b = put_one(head, a, name.len());
    let c = put_two(head, b, parent);
    let d = put_bytes(head, c, name);
    clear(&mut head[d..]);
}
