// The record reader for C: all that it tells of the record at a place, in one struct of numbers.
ghost use Rattle.std.specs.Prelude.{◌≡◌, drop};
ghost use Rattle.record.specs.Decode.{decode_record};
ghost use Rattle.record_reader.specs.declared.Whole.{Whole};
ghost use Rattle.writebehind.specs.Loss.{loss_in, no_loss, loss_of};

use buffer::span::Span;
use record_reader::{Whole, read_record};
use returned::Refusal;

// A loss record: the returned number, the place after it, then its fields. Names, data and list are told by where they begin in
// the buffer and how many bytes they have. A field that the record does not have is 0.
#[repr(C)]
#[derive(Drop)]
pub struct Loss {
    pub returned: u64,
    pub next: u64,
    pub sequence: u64,
    pub program: u64,
    pub kind: u64,
    pub map: u64,
    pub object: u64,
    pub parent: u64,
    pub second_parent: u64,
    pub displaced: u64,
    pub name_at: u64,
    pub name_len: u64,
    pub second_name_at: u64,
    pub second_name_len: u64,
    pub offset: u64,
    pub data_at: u64,
    pub data_len: u64,
    pub list_at: u64,
    pub list_len: u64,
}

// "20 Bad record", and zeros.
fn no_loss() -> Loss
    ensures { result ≡ no_loss }
{
    Loss {
        returned: Refusal::BadRecord.number() as u64,
        next: 0,
        sequence: 0,
        program: 0,
        kind: 0,
        map: 0,
        object: 0,
        parent: 0,
        second_parent: 0,
        displaced: 0,
        name_at: 0,
        name_len: 0,
        second_name_at: 0,
        second_name_len: 0,
        offset: 0,
        data_at: 0,
        data_len: 0,
        list_at: 0,
        list_len: 0,
    }
}

// What was read of a whole record.
fn loss_in(w: Whole) -> Loss
    ensures { result ≡ loss_in w }
{
    let next = w.next;
    let head = w.head;
    let objects = w.objects;
    let names = w.names;
    let name: Span = names.name;
    let second: Span = names.second;
    let range = w.range;
    let content: Span = range.content;
    let list: Span = range.list;
    let kind = head.kind;
    Loss {
        returned: 0,
        next: next.at as u64,
        sequence: head.sequence as u64,
        program: head.program as u64,
        kind: kind.code() as u64,
        map: head.map as u64,
        object: objects.object as u64,
        parent: objects.parent as u64,
        second_parent: objects.second as u64,
        displaced: objects.displaced as u64,
        name_at: name.start as u64,
        name_len: name.len as u64,
        second_name_at: second.start as u64,
        second_name_len: second.len as u64,
        offset: range.offset as u64,
        data_at: content.start as u64,
        data_len: content.len as u64,
        list_at: list.start as u64,
        list_len: list.len as u64,
    }
}

// The record at a place of a buffer.
pub fn loss_at(at: usize, buffer: &[u8]) -> Loss
    ensures { result ≡ loss_of at (decode_record (drop at buffer.now)) }
{
    match read_record(buffer, at) {
        Some(w) => loss_in(w),
        None => no_loss(),
    }
}
