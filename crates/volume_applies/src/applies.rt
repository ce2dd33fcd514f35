// Whether an operation applies (document 01, "Returned numbers", its last paragraph): "its own conditions hold there and
// names lead to the recorded objects".
ghost use Rattle.std.specs.Prelude.{◌≡◌, ◌<◌};
ghost use Rattle.record.specs.Fields.{displaced_if};
ghost use Rattle.volume_apply.specs.Apply.{leads, has_room, removable, stays, displaceable, yields, renamable, overwritable, appendable, applies};
ghost use Rattle.volume_tree.specs.Stored.{read_volume};
ghost use Rattle.volume_tree.specs.Code.Lent.{Lent};
ghost use Rattle.volume_applies.specs.Code.Held.{Fitting, operation_in};

use buffer::span::stretch_of;
use record::kind::Kind;
use record_reader::{Objects, Whole};
use record_valid::valid::stands;
use volume_entry::field::{contents, is_directory, is_file, is_used, kind};
use volume_tree::entries::entry;
use volume_tree::search::{has_children, search};

// Whether a name leads to an object; it is sought only in a directory.
fn leads_to(s: &[u8], n: usize, b: usize, d: usize, name: &[u8], o: usize) -> bool
    requires lent { Lent n b s.now }
    requires d_lt_n { d < n }
    ensures { result ≡ leads (read_volume n b s.now) d name.now o }
{
    if is_directory(entry(s, n, b, d)) {
        return match search(s, n, b, d, name) {
            Some(i) => i == o,
            None => false,
        };
    }
    false
}

// Whether a new entry has room: the parent a used directory, the name absent, the number free.
fn has_room(s: &[u8], n: usize, b: usize, o: usize, p: usize, name: &[u8]) -> bool
    requires lent { Lent n b s.now }
    requires o_lt_n { (o < n) × (p < n) }
    ensures { result ≡ has_room (read_volume n b s.now) o p name.now }
{
    if is_directory(entry(s, n, b, p)) {
        return match search(s, n, b, p, name) {
            Some(i) => false,
            None => !is_used(entry(s, n, b, o)),
        };
    }
    false
}

// Whether an object may be removed under its name.
fn is_removable(s: &[u8], n: usize, b: usize, o: usize, p: usize, name: &[u8]) -> bool
    requires lent { Lent n b s.now }
    requires p_lt_n { p < n }
    ensures { result ≡ removable (read_volume n b s.now) o p name.now }
{
    if leads_to(s, n, b, p, name, o) {
        if has_children(s, n, b, o) {
            return false;
        }
        return true;
    }
    false
}

// "A directory stays in its parent."
fn is_staying(s: &[u8], n: usize, b: usize, o: usize, p: usize, q: usize) -> bool
    requires lent { Lent n b s.now }
    requires o_lt_n { o < n }
    ensures { result ≡ stays (read_volume n b s.now) o p q }
{
    if is_directory(entry(s, n, b, o)) {
        return p == q;
    }
    true
}

// Whether an object may be displaced: "a file by a file or an empty directory by a directory".
fn is_displaceable(s: &[u8], n: usize, b: usize, o: usize, d: usize) -> bool
    requires lent { Lent n b s.now }
    requires o_lt_n { (o < n) × (d < n) }
    ensures { result ≡ displaceable (read_volume n b s.now) o d }
{
    if kind(entry(s, n, b, d)) == kind(entry(s, n, b, o)) {
        if has_children(s, n, b, d) {
            return false;
        }
        return true;
    }
    false
}

// Whether the second name of a rename yields: absent or leading to the object, or leading to the displaced one.
fn is_yielding(
    s: &[u8],
    n: usize,
    b: usize,
    o: usize,
    q: usize,
    displacing: bool,
    d: usize,
    name: &[u8],
) -> bool
    requires lent { Lent n b s.now }
    requires o_lt_n { o < n }
    ensures { result ≡ yields (read_volume n b s.now) o q (displaced_if displacing d) name.now }
{
    let Some(i) = search(s, n, b, q, name) else {
        if displacing {
            return false;
        }
        return true;
    };
    if displacing {
        if i == d {
            return is_displaceable(s, n, b, o, d);
        }
        return false;
    }
    i == o
}

// Whether a rename applies.
fn is_renamable(
    s: &[u8],
    n: usize,
    b: usize,
    objects: Objects,
    displacing: bool,
    name: &[u8],
    second: &[u8],
) -> bool
    requires lent { Lent n b s.now }
    requires object_lt_n { (objects.object < n) × (objects.parent < n) × (objects.second < n) }
    ensures { result
        ≡ renamable (read_volume n b s.now) objects.object objects.parent objects.second (displaced_if displacing objects.displaced) name.now second.now }
{
    let o = objects.object;
    let p = objects.parent;
    let q = objects.second;
    let d = objects.displaced;
    if leads_to(s, n, b, p, name, o) {
        if is_directory(entry(s, n, b, q)) {
            if is_staying(s, n, b, o, p, q) {
                return is_yielding(s, n, b, o, q, displacing, d, second);
            }
        }
    }
    false
}

// Whether a write over bytes of a file applies: "wholly inside the length".
fn is_overwritable(s: &[u8], n: usize, b: usize, o: usize, offset: usize, len: usize) -> bool
    requires lent { Lent n b s.now }
    requires o_lt_n { o < n }
    ensures { result ≡ overwritable (read_volume n b s.now) o offset len }
{
    let e = entry(s, n, b, o);
    if is_file(e) {
        let end = contents(e).len();
        if end < offset {
            return false;
        }
        return len <= end - offset;
    }
    false
}

// Whether an append applies: "an append must begin at the length".
fn is_appendable(s: &[u8], n: usize, b: usize, o: usize, offset: usize) -> bool
    requires lent { Lent n b s.now }
    requires o_lt_n { o < n }
    ensures { result ≡ appendable (read_volume n b s.now) o offset }
{
    let e = entry(s, n, b, o);
    if is_file(e) {
        return offset == contents(e).len();
    }
    false
}

// Whether the operation that a slice holds applies to a volume.
pub fn applies(s: &[u8], n: usize, b: usize, rec: &[u8], w: Whole) -> bool
    requires lent { Lent n b s.now }
    requires fitting { Fitting n b rec.now w }
    ensures { result ≡ applies (read_volume n b s.now) (operation_in rec.now w) }
{
    let head = w.head;
    let objects = w.objects;
    let names = w.names;
    let range = w.range;
    let first = names.name;
    let second = names.second;
    let content = range.content;
    let name = stretch_of(rec, first.start, first.len);
    let code = head.kind;
    match code {
        Kind::CreateFile => has_room(s, n, b, objects.object, objects.parent, name),
        Kind::MakeDirectory => has_room(s, n, b, objects.object, objects.parent, name),
        Kind::Remove => is_removable(s, n, b, objects.object, objects.parent, name),
        Kind::Rename => is_renamable(
            s,
            n,
            b,
            objects,
            stands(head.map, 8),
            name,
            stretch_of(rec, second.start, second.len),
        ),
        Kind::Overwrite => {
            let src = stretch_of(rec, content.start, content.len);
            is_overwritable(s, n, b, objects.object, range.offset, src.len())
        }
        Kind::Append => is_appendable(s, n, b, objects.object, range.offset),
        Kind::SetLength => is_file(entry(s, n, b, objects.object)),
        Kind::Forder => true,
    }
}
