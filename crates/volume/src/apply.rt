// What an operation leaves of a volume that it applies to (document 01, "Calls"). It serves the view when the operation is
// issued and the server when it is sent.
ghost use Rattle.std.specs.Prelude.{◌≡◌, true, ◌≤◌, ◌<◌, length, set};
ghost use Rattle.names.specs.Name.{longest_name};
ghost use Rattle.record.specs.Fields.{displaced_if};
ghost use Rattle.volume_entry.specs.Entry.{has_name, renamed};
ghost use Rattle.volume_apply.specs.Apply.{without_displaced, applies, apply};
ghost use Rattle.volume_tree.specs.Stored.{encode_volume, read_volume};
ghost use Rattle.volume_tree.specs.Code.Lent.{Formed, entry_in};
ghost use Rattle.volume_applies.specs.Code.Held.{Fitting, operation_in, Displaces};

use buffer::span::stretch_of;
use record::kind::Kind;
use record_reader::{Objects, Whole};
use record_valid::valid::stands;
use volume_entry::{DIRECTORY, FILE};
use volume_write::write::{
    append_file, free_entry, make_entry, overwrite_file, rename_entry, set_file_length,
};

// What a rename leaves: the displaced object gone, and the object under its second name and parent.
fn apply_rename(s: &mut [u8], n: usize, b: usize, objects: Objects, displacing: bool, name: &[u8])
    requires formed { Formed n b s.old }
    requires object_lt_n { (objects.object < n) × (has_name (entry_in n b s.old objects.object) ≡ true) × (length name.now ≤ longest_name) }
    requires displaces { Displaces n b (read_volume n b s.old) objects.object (displaced_if displacing objects.displaced) }
    ensures { s.new
        ≡ encode_volume b (set (without_displaced (read_volume n b s.old) (displaced_if displacing objects.displaced)) objects.object (renamed (entry_in n b s.old objects.object) name.now objects.second)) }
{
    if displacing {
        free_entry(s, n, b, objects.displaced);
        rename_entry(s, n, b, objects.object, objects.second, name);
        return;
    }
    rename_entry(s, n, b, objects.object, objects.second, name);
}

// Applies the operation that a slice holds; every byte that it does not change stays.
pub fn apply(s: &mut [u8], n: usize, b: usize, rec: &[u8], w: Whole)
    requires formed { Formed n b s.old }
    requires fitting { Fitting n b rec.now w }
    requires w_value { applies (read_volume n b s.old) (operation_in rec.now w) ≡ true }
    ensures { s.new ≡ encode_volume b (apply (read_volume n b s.old) (operation_in rec.now w)) }
{
    let head = w.head;
    let objects = w.objects;
    let names = w.names;
    let range = w.range;
    let first = names.name;
    let second = names.second;
    let content = range.content;
    let o = objects.object;
    let name = stretch_of(rec, first.start, first.len);
    let src = stretch_of(rec, content.start, content.len);
    let code = head.kind;
    match code {
        Kind::CreateFile => make_entry(s, n, b, o, FILE, objects.parent, name),
        Kind::MakeDirectory => make_entry(s, n, b, o, DIRECTORY, objects.parent, name),
        Kind::Remove => free_entry(s, n, b, o),
        Kind::Rename => apply_rename(
            s,
            n,
            b,
            objects,
            stands(head.map, 8),
            stretch_of(rec, second.start, second.len),
        ),
        Kind::Overwrite => overwrite_file(s, n, b, o, range.offset, src),
        Kind::Append => append_file(s, n, b, o, range.offset, src),
        Kind::SetLength => set_file_length(s, n, b, o, range.offset),
        Kind::Forder => {}
    }
}
