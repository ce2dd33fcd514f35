// List: "per child number 2, kind 1, name length 1, name; rising numbers".
ghost use Rattle.std.specs.Prelude.{◌≡◌, ◌+◌, ◌≤◌, ◌<◌, length, Err};
ghost use Rattle.returned.specs.Refusal.{refusal_number};
ghost use Rattle.buffer.specs.Patch.{Put};
ghost use Rattle.volume_tree.specs.Stored.{read_volume};
ghost use Rattle.volume_tree.specs.Code.Lent.{Lent};
ghost use Rattle.volume_questions.specs.Listing.{listing, listed_at};
ghost use Rattle.volume_questions.specs.Answer.{list_answer, list_leaves, list_number};

use crate::object::{ObjectError, ObjectKind, object_at};
use buffer::put::{put_bytes, put_one, put_two};
use returned::Refusal;
use volume_entry::field::{kind, name};
use volume_tree::entries::entry;
use volume_tree::search::is_child;

// Why nothing is listed.
#[derive(Clone, Copy, PartialEq, Eq)]
pub enum ListError {
    BadNumber,
    NoObject,
    WrongKind,
    Short,
}

impl From<ListError> for Refusal {
    ghost from_gives = { λ e r. refusal_number r ≡ list_number (Err e) };

    fn from(error: ListError) -> Refusal {
        match error {
            ListError::BadNumber => Refusal::BadNumber,
            ListError::NoObject => Refusal::NoObject,
            ListError::WrongKind => Refusal::WrongKind,
            ListError::Short => Refusal::ShortBuffer,
        }
    }
}

// The bytes that an entry takes in the listing of a directory.
fn listed_len(s: &[u8], n: usize, b: usize, d: usize, i: usize) -> usize
    requires lent { Lent n b s.now }
    requires i_lt_n { i < n }
    ensures { (result ≡ length (listed_at (read_volume n b s.now) d i)) × (result < 1024) }
{
    if is_child(s, n, b, d, i) {
        return 4 + name(entry(s, n, b, i)).len();
    }
    0
}

// The bytes that the listing of a directory takes.
fn listing_len(s: &[u8], n: usize, b: usize, d: usize) -> usize
    requires { Lent n b s.now }
    ensures { result ≡ length (listing (read_volume n b s.now) d n) }
{
    let mut len = 0;
    for i in 0..n {
        len += listed_len(s, n, b, d, i);
    }
    len
}

// Puts what is listed of an entry, if it is a child of the directory, at a place of the buffer.
fn put_listed(s: &[u8], n: usize, b: usize, d: usize, i: usize, buf: &mut [u8], at: usize) -> usize
    requires lent { Lent n b s.now }
    requires i_lt_n { i < n }
    requires i_in_bounds { at + length (listed_at (read_volume n b s.now) d i) ≤ length buf.old }
    ensures { Put (listed_at (read_volume n b s.now) d i) at buf.old buf.new result }
{
    if is_child(s, n, b, d, i) {
        let e = entry(s, n, b, i);
        let text = name(e);
        let p = put_two(buf, at, i);
        let q = put_one(buf, p, kind(e));
        let r = put_one(buf, q, text.len());
        return put_bytes(buf, r, text);
    }
    at
}

// Puts the listing of a directory at the start of the buffer.
fn put_listing(s: &[u8], n: usize, b: usize, d: usize, buf: &mut [u8]) -> usize
    requires lent { Lent n b s.now }
    requires n_in_bounds { length (listing (read_volume n b s.now) d n) ≤ length buf.old }
    ensures { Put (listing (read_volume n b s.now) d n) 0 buf.old buf.new result }
{
    let mut at = 0;
    for i in 0..n {
        at = put_listed(s, n, b, d, i, buf, at);
    }
    at
}

// Lists a directory into a buffer; where it does not fit, nothing is written.
pub fn list(s: &[u8], n: usize, b: usize, o: usize, buf: &mut [u8]) -> Result<usize, ListError>
    requires { Lent n b s.now }
    ensures answer { result ≡ list_answer (read_volume n b s.now) o buf.old }
    ensures buffer { buf.new ≡ list_leaves (read_volume n b s.now) o buf.old }
{
    match object_at(s, n, b, o) {
        Err(ObjectError::BadNumber) => Err(ListError::BadNumber),
        Err(ObjectError::NoObject) => Err(ListError::NoObject),
        Ok(ObjectKind::File) => Err(ListError::WrongKind),
        Ok(ObjectKind::Directory) => {
            if buf.len() < listing_len(s, n, b, o) {
                return Err(ListError::Short);
            }
            Ok(put_listing(s, n, b, o, buf))
        }
    }
}
