// The form of one entry's bytes (document 01, "Geometry and stored form").
#![tactic(auto)]

ghost use Rattle.std.specs.Prelude.{◌≡◌, ◌≤◌, length};
ghost use Rattle.volume_entry.specs.Stored.{entry_bytes, data_at};
ghost use Rattle.volume_entry_form.specs.Code.Check.{name_formed, data_formed, entry_formed, root_formed};

use buffer::BLOCK;
use buffer::number::{byte_at, four_at};
use buffer::zero::all_zero;
use names::{LONGEST_NAME, name_text};
use volume_entry::{DATA_AT, DIRECTORY, FILE, FREE, LENGTH_AT};

// "a valid name" of at most 60 bytes, and zeros behind it.
fn name_formed(e: &[u8]) -> bool
    requires { data_at ≤ length e.now }
    ensures { result ≡ name_formed e.now }
{
    let len = byte_at(e, 1);
    if LONGEST_NAME < len {
        return false;
    }
    let end = 4 + len;
    match name_text(&e[4..end]) {
        Ok(()) => all_zero(&e[end..LENGTH_AT]),
        Err(_) => false,
    }
}

// A file length of at most 1,024 × b, and zeros behind so many bytes of data.
fn data_formed(e: &[u8], b: usize) -> bool
    requires { (b ≤ 64) × (length e.now ≡ entry_bytes b) }
    ensures { result ≡ data_formed b e.now }
{
    let len = four_at(e, LENGTH_AT);
    if BLOCK * b < len {
        return false;
    }
    all_zero(&e[DATA_AT + len..])
}

// Whether an entry other than the root is well formed by itself.
pub fn entry_formed(e: &[u8], b: usize) -> bool
    requires { (b ≤ 64) × (length e.now ≡ entry_bytes b) }
    ensures { result ≡ entry_formed b e.now }
{
    let kind = byte_at(e, 0);
    if kind == FREE {
        return all_zero(e);
    }
    if DIRECTORY < kind {
        return false;
    }
    if name_formed(e) {
        if kind == FILE {
            return data_formed(e, b);
        }
        return all_zero(&e[LENGTH_AT..]);
    }
    false
}

// Whether an entry is the root: "a directory, empty name, parent 0".
pub fn root_formed(e: &[u8]) -> bool
    requires { data_at ≤ length e.now }
    ensures { result ≡ root_formed e.now }
{
    if e[0] == 2 {
        return all_zero(&e[1..]);
    }
    false
}
