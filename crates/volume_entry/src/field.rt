// The fields of an entry's bytes, as `read_entry` tells them: exact for any bytes, well formed or not.
ghost use Rattle.std.specs.Prelude.{◌≡◌, ◌≤◌, ◌<◌, length};
ghost use Rattle.volume_entry.specs.Entry.{kind_number, name_of, parent_of, contents_of, is_used, is_file, is_directory, has_name, usage};
ghost use Rattle.volume_entry.specs.Stored.{read_entry, data_at};

use crate::{DATA_AT, DIRECTORY, FILE, FREE, LENGTH_AT};
use buffer::number::{byte_at, four_at, two_at};
use buffer::span::stretch_of;

// "kind (1 byte: 0 free, 1 file, 2 directory)".
pub fn kind(e: &[u8]) -> usize
    requires { data_at ≤ length e.now }
    ensures { result ≡ kind_number (read_entry e.now) }
{
    let code = byte_at(e, 0);
    if code < DIRECTORY {
        return code;
    }
    DIRECTORY
}

pub fn is_used(e: &[u8]) -> bool
    requires { data_at ≤ length e.now }
    ensures { result ≡ is_used (read_entry e.now) }
{
    kind(e) != FREE
}

pub fn is_file(e: &[u8]) -> bool
    requires { data_at ≤ length e.now }
    ensures { result ≡ is_file (read_entry e.now) }
{
    kind(e) == FILE
}

pub fn is_directory(e: &[u8]) -> bool
    requires { data_at ≤ length e.now }
    ensures { result ≡ is_directory (read_entry e.now) }
{
    kind(e) == DIRECTORY
}

// Whether an entry has a name to be found by: "Every other used entry has a valid name".
pub fn has_name(e: &[u8]) -> bool
    requires { data_at ≤ length e.now }
    ensures { result ≡ has_name (read_entry e.now) }
{
    kind(e) != FREE
}

// The parent's number; 0 of an entry without a name.
pub fn parent(e: &[u8]) -> usize
    requires { data_at ≤ length e.now }
    ensures { (result ≡ parent_of (read_entry e.now)) × (result < 65536) }
{
    if has_name(e) {
        return two_at(e, 2);
    }
    0
}

// The name, as a part of the entry; empty of an entry without one.
pub fn name(e: &[u8]) -> &[u8]
    requires { data_at ≤ length e.now }
    ensures { result.now ≡ name_of (read_entry e.now) }
{
    if has_name(e) {
        return stretch_of(e, 4, byte_at(e, 1));
    }
    &e[..0]
}

// The contents of a file, as a part of the entry; empty of any other entry.
pub fn contents(e: &[u8]) -> &[u8]
    requires { data_at ≤ length e.now }
    ensures { result.now ≡ contents_of (read_entry e.now) }
{
    if is_file(e) {
        return stretch_of(e, DATA_AT, four_at(e, LENGTH_AT));
    }
    &e[..0]
}

// "Usage is length / 1,024 to the nearest whole number, half upwards."
pub fn usage_of(len: usize) -> usize
    ensures { result ≡ usage len }
{
    if len % 1024 < 512 {
        return len / 1024;
    }
    len / 1024 + 1
}
