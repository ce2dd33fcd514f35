// The record writer: a function for each shape of record, which writes it at the start of a lent buffer and answers its
// length (document 01, "Loss record").
#![tactic(auto, using(crate::specs::Laws::Writer::sizes), unfolding(buffer::specs::Numeral::bytes, record::specs::Fields::head_bytes))]

ghost use Rattle.std.specs.Prelude.{◌≡◌, ◌+◌, ◌%◌, ◌≤◌, length};
ghost use Rattle.record.specs.Kind.{code_of, map_of_kind};
ghost use Rattle.buffer.specs.Numeral.{bytes};
ghost use Rattle.record.specs.Operation.{map_with};
ghost use Rattle.record.specs.Fields.{text, head_bytes};
ghost use Rattle.buffer.specs.Patch.{Put};
ghost use Rattle.record_writer.specs.Code.Writer.{Writable, Written, displaced_bytes, entry_record, rename_record, range_record, length_record, forder_record};

use buffer::put::{put_bytes, put_four, put_one, put_two};
use record::kind::Kind;

// Puts a name: "length 1, bytes".
fn put_text(buf: &mut [u8], at: usize, name: &[u8]) -> usize
    requires { at + 1 + length name.now ≤ length buf.old }
    ensures { Put (text name.now) at buf.old buf.new result }
{
    let name_at = put_one(buf, at, name.len());
    put_bytes(buf, name_at, name)
}

// Puts "A bit map of 2 bytes, sequence (4), program (1), kind (1)" at the start.
fn put_head(buf: &mut [u8], map: usize, sequence: usize, program: usize, kind: Kind) -> usize
    requires { 8 ≤ length buf.old }
    ensures { Put (head_bytes map sequence program (code_of kind)) 0 buf.old buf.new result }
{
    let sequence_at = put_two(buf, 0, map);
    let program_at = put_four(buf, sequence_at, sequence);
    let kind_at = put_one(buf, program_at, program);
    put_one(buf, kind_at, kind.code())
}

// The map of a rename, by its displaced object.
fn rename_map(displaced: Option<usize>) -> usize
    ensures { result ≡ map_with Kind.Rename displaced }
{
    match displaced {
        Some(_) => Kind::Rename.displacing_map(),
        None => Kind::Rename.map(),
    }
}

// Puts a displaced object, field 3, if there is one.
fn put_displaced(buf: &mut [u8], at: usize, displaced: Option<usize>) -> usize
    requires { at + length (displaced_bytes displaced) ≤ length buf.old }
    ensures { Put (displaced_bytes displaced) at buf.old buf.new result }
{
    match displaced {
        Some(object) => put_two(buf, at, object),
        None => at,
    }
}

// Writes a record of create file, make directory or remove.
pub fn write_entry(
    buf: &mut [u8],
    kind: Kind,
    sequence: usize,
    program: usize,
    object: usize,
    parent: usize,
    name: &[u8],
) -> usize
    requires kind_value { map_of_kind kind ≡ map_of_kind Kind.CreateFile }
    requires writable { Writable (entry_record kind sequence program object parent name.now) buf.old }
    ensures { Written (entry_record kind sequence program object parent name.now) buf.old buf.new result }
{
    let object_at = put_head(buf, kind.map(), sequence, program, kind);
    let parent_at = put_two(buf, object_at, object);
    let name_at = put_two(buf, parent_at, parent);
    put_text(buf, name_at, name)
}

// Writes a record of rename, which may displace an object.
pub fn write_rename(
    buf: &mut [u8],
    sequence: usize,
    program: usize,
    object: usize,
    parent: usize,
    second: usize,
    displaced: Option<usize>,
    name: &[u8],
    second_name: &[u8],
) -> usize
    requires { Writable (rename_record sequence program object parent second displaced name.now second_name.now) buf.old }
    ensures { Written (rename_record sequence program object parent second displaced name.now second_name.now) buf.old buf.new result }
{
    let object_at = put_head(buf, rename_map(displaced), sequence, program, Kind::Rename);
    let parent_at = put_two(buf, object_at, object);
    let second_at = put_two(buf, parent_at, parent);
    let displaced_at = put_two(buf, second_at, second);
    let name_at = put_displaced(buf, displaced_at, displaced);
    let second_name_at = put_text(buf, name_at, name);
    put_text(buf, second_name_at, second_name)
}

// Writes a record of overwrite or append.
pub fn write_range(
    buf: &mut [u8],
    kind: Kind,
    sequence: usize,
    program: usize,
    object: usize,
    offset: usize,
    content: &[u8],
) -> usize
    requires kind_value { map_of_kind kind ≡ map_of_kind Kind.Overwrite }
    requires writable { Writable (range_record kind sequence program object offset content.now) buf.old }
    ensures { Written (range_record kind sequence program object offset content.now) buf.old buf.new result }
{
    let object_at = put_head(buf, kind.map(), sequence, program, kind);
    let offset_at = put_two(buf, object_at, object);
    let length_at = put_four(buf, offset_at, offset);
    let content_at = put_two(buf, length_at, content.len());
    put_bytes(buf, content_at, content)
}

// Writes a record of set length.
pub fn write_length(
    buf: &mut [u8],
    sequence: usize,
    program: usize,
    object: usize,
    length: usize,
) -> usize
    requires { Writable (length_record sequence program object length) buf.old }
    ensures { Written (length_record sequence program object length) buf.old buf.new result }
{
    let object_at = put_head(
        buf,
        Kind::SetLength.map(),
        sequence,
        program,
        Kind::SetLength,
    );
    let length_at = put_two(buf, object_at, object);
    put_four(buf, length_at, length)
}

// Writes a record of forder, whose list is "lent as 2 bytes an object".
pub fn write_forder(buf: &mut [u8], sequence: usize, program: usize, list: &[u8]) -> usize
    requires list_len { length list.now % 2 ≡ 0 }
    requires writable { Writable (forder_record sequence program list.now) buf.old }
    ensures { Written (forder_record sequence program list.now) buf.old buf.new result }
{
    let count_at = put_head(buf, Kind::Forder.map(), sequence, program, Kind::Forder);
    let list_at = put_one(buf, count_at, list.len() / 2);
    put_bytes(buf, list_at, list)
}
