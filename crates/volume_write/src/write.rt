// What is written of one entry, lent on as a part that starts in the middle of the volume: every other byte stays.
ghost use Rattle.std.specs.Prelude.{◌≡◌, true, [], ◌++◌, ◌+◌, ◌*◌, ◌-◌, ◌%◌, ◌≤◌, ◌<◌, length, replicate};
ghost use Rattle.names.specs.Name.{longest_name};
ghost use Rattle.buffer.specs.Geometry.{block_bytes};
ghost use Rattle.buffer.specs.Numeral.{bytes};
ghost use Rattle.buffer.specs.Patch.{patch};
ghost use Rattle.volume_entry.specs.Entry.{free, is_file, has_name, contents_of, renamed, refilled};
ghost use Rattle.volume_entry.specs.Stored.{entry_bytes, entry_of, length_at, data_at};
ghost use Rattle.volume_entry.specs.Write.{head_field, resized};
ghost use Rattle.volume_tree.specs.Code.Lent.{Lent, Formed, entry_in, with_entry};

use buffer::BLOCK;
use buffer::put::{put_bytes, put_four};
use buffer::zero::clear;
use volume_entry::field::{contents, kind};
use volume_entry::write::put_head;
use volume_entry::{DATA_AT, LENGTH_AT};
use volume_tree::entries::entry;

// Writes one entry's head: kind, name length, parent, name.
fn write_head(s: &mut [u8], n: usize, b: usize, i: usize, kind: usize, parent: usize, name: &[u8])
    requires lent { Lent n b s.old }
    requires i_lt_n { i < n }
    requires name_len_bound { length name.now ≤ longest_name }
    ensures { s.new ≡ patch s.old (i * entry_bytes b) (head_field kind parent name.now) }
{
    let at = i * (DATA_AT + BLOCK * b);
    let end = at + LENGTH_AT;
    put_head(&mut s[at..end], kind, parent, name);
}

// Writes one entry's file length.
fn write_len(s: &mut [u8], n: usize, b: usize, i: usize, len: usize)
    requires lent { Lent n b s.old }
    requires i_lt_n { i < n }
    ensures { s.new ≡ patch s.old (i * entry_bytes b + length_at) (bytes 4 len) }
{
    let start = i * (DATA_AT + BLOCK * b) + LENGTH_AT;
    let end = start + 4;
    put_four(&mut s[start..end], 0, len);
}

// "Only the named block is written": data that lie in one block of a file.
fn write_block(s: &mut [u8], n: usize, b: usize, i: usize, offset: usize, src: &[u8])
    requires lent { Lent n b s.old }
    requires i_lt_n { i < n }
    requires in_bounds { (1 ≤ length src.now) × (offset % block_bytes + length src.now ≤ block_bytes) × (offset + length src.now ≤ block_bytes * b) }
    ensures { s.new ≡ patch s.old (i * entry_bytes b + (data_at + offset)) src.now }
{
    let start = i * (DATA_AT + BLOCK * b) + DATA_AT + offset / BLOCK * BLOCK;
    let end = start + BLOCK;
    put_bytes(&mut s[start..end], offset % BLOCK, src);
}

// Zeroes the data of one entry from an offset up to another.
fn clear_data(s: &mut [u8], n: usize, b: usize, i: usize, from: usize, to: usize)
    requires lent { Lent n b s.old }
    requires i_lt_n { i < n }
    requires from_le_to { (from ≤ to) × (to ≤ block_bytes * b) }
    ensures { s.new ≡ patch s.old (i * entry_bytes b + (data_at + from)) (replicate (to - from) 0) }
{
    let at = i * (DATA_AT + BLOCK * b) + DATA_AT;
    let start = at + from;
    let end = at + to;
    clear(&mut s[start..end]);
}

// Makes a file (kind 1) or a directory (kind 2) of a free entry.
pub fn make_entry(
    s: &mut [u8],
    n: usize,
    b: usize,
    i: usize,
    kind: usize,
    parent: usize,
    name: &[u8],
)
    requires formed { Formed n b s.old }
    requires i_lt_n { (i < n) × (entry_in n b s.old i ≡ free) }
    requires le_kind { (1 ≤ kind) × (kind ≤ 2) × (length name.now ≤ longest_name) }
    ensures { s.new ≡ with_entry n b s.old i (entry_of kind name.now parent []) }
{
    write_head(s, n, b, i, kind, parent, name);
}

// Frees an entry: "a free entry is all zero".
pub fn free_entry(s: &mut [u8], n: usize, b: usize, i: usize)
    requires formed { Formed n b s.old }
    requires i_lt_n { i < n }
    ensures { s.new ≡ with_entry n b s.old i free }
{
    let size = DATA_AT + BLOCK * b;
    let at = i * size;
    let end = at + size;
    clear(&mut s[at..end]);
}

// Gives an entry with a name another name and parent.
pub fn rename_entry(s: &mut [u8], n: usize, b: usize, i: usize, parent: usize, name: &[u8])
    requires formed { Formed n b s.old }
    requires i_lt_n { (i < n) × (has_name (entry_in n b s.old i) ≡ true) × (length name.now ≤ longest_name) }
    ensures { s.new ≡ with_entry n b s.old i (renamed (entry_in n b s.old i) name.now parent) }
{
    let code = kind(entry(s, n, b, i));
    write_head(s, n, b, i, code, parent, name);
}

// Writes data over those of a file.
pub fn overwrite_file(s: &mut [u8], n: usize, b: usize, i: usize, offset: usize, src: &[u8])
    requires formed { Formed n b s.old }
    requires i_lt_n { (i < n) × (is_file (entry_in n b s.old i) ≡ true) }
    requires in_bounds { (1 ≤ length src.now) × (offset % block_bytes + length src.now ≤ block_bytes)
        × (offset + length src.now ≤ length (contents_of (entry_in n b s.old i))) }
    ensures { s.new
        ≡ with_entry n b s.old i (refilled (entry_in n b s.old i) (patch (contents_of (entry_in n b s.old i)) offset src.now)) }
{
    write_block(s, n, b, i, offset, src);
}

// Adds data at the end of a file.
pub fn append_file(s: &mut [u8], n: usize, b: usize, i: usize, offset: usize, src: &[u8])
    requires formed { Formed n b s.old }
    requires i_lt_n { (i < n) × (is_file (entry_in n b s.old i) ≡ true) × (offset ≡ length (contents_of (entry_in n b s.old i))) }
    requires in_bounds { (1 ≤ length src.now) × (offset % block_bytes + length src.now ≤ block_bytes) × (offset + length src.now ≤ block_bytes * b) }
    ensures { s.new
        ≡ with_entry n b s.old i (refilled (entry_in n b s.old i) (contents_of (entry_in n b s.old i) ++ src.now)) }
{
    write_block(s, n, b, i, offset, src);
    write_len(s, n, b, i, offset + src.len());
}

// "Set length zeroes what it cuts off or adds."
pub fn set_file_length(s: &mut [u8], n: usize, b: usize, i: usize, len: usize)
    requires formed { Formed n b s.old }
    requires i_lt_n { (i < n) × (is_file (entry_in n b s.old i) ≡ true) × (len ≤ block_bytes * b) }
    ensures { s.new
        ≡ with_entry n b s.old i (refilled (entry_in n b s.old i) (resized (contents_of (entry_in n b s.old i)) len)) }
{
    let old = contents(entry(s, n, b, i)).len();
    if len < old {
        clear_data(s, n, b, i, len, old);
        write_len(s, n, b, i, len);
        return;
    }
    clear_data(s, n, b, i, old, len);
    write_len(s, n, b, i, len);
}
