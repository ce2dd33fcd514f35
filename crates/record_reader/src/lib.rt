// The record reader: a place by value, whose methods yield the field, or the refusal, with the next place.
#![tactic(auto)]

ghost use Rattle.std.specs.Prelude.{◌≡◌, ◌<◌};
ghost use Rattle.record_reader.specs.Code.Reader.{number_at, part_at, object_at, offset_at, name_at, block_at, list_at, head_of, head_at, objects_at, names_at, range_at, tied_at, record_at};
ghost use Rattle.record_reader.specs.Answer.{Exact};
ghost use Rattle.record.specs.Fields.{stands_in};
ghost use Rattle.record.specs.Kind.{kind_of_code};

use buffer::BLOCK;
use buffer::number::{byte_at, four_at, two_at};
use buffer::span::{Span, stretch_of};
use names::name_text;
use record::kind::Kind;
use record_valid::list::good_list;
use record_valid::valid::{differ, in_block, in_limits, stands, valid_head};

pub mod fit;

// Where nothing lies: what is told of a stretch that is absent.
const NOWHERE: Span = Span { start: 0, len: 0 };

// A place in a buffer, counted in bytes from its start.
#[derive(Clone, Copy)]
pub struct Place {
    pub at: usize,
}

// The map, sequence, program and kind of a record.
#[derive(Clone, Copy)]
pub struct Head {
    pub map: usize,
    pub sequence: usize,
    pub program: usize,
    pub kind: Kind,
}

// Fields 0 to 3; 0 where a field is absent.
#[derive(Clone, Copy)]
pub struct Objects {
    pub object: usize,
    pub parent: usize,
    pub second: usize,
    pub displaced: usize,
}

// Fields 4 and 5: where the names lie; 0 and 0 where a field is absent.
#[derive(Clone, Copy)]
pub struct Names {
    pub name: Span,
    pub second: Span,
}

// Fields 6 to 8: the offset or new length, and where the data and the list lie; 0 where a field is absent.
#[derive(Clone, Copy)]
pub struct Range {
    pub offset: usize,
    pub content: Span,
    pub list: Span,
}

// A whole record: its head, its fields, and the place after it.
#[derive(Clone, Copy)]
pub struct Whole {
    pub head: Head,
    pub objects: Objects,
    pub names: Names,
    pub range: Range,
    pub next: Place,
}

impl Place {
    pub fn one(self, s: &[u8]) -> Option<(usize, Place)>
        ensures { result ≡ number_at 1 s.now self.at }
    {
        let at = self.at;
        if s.len() <= at {
            return None;
        }
        Some((byte_at(s, at), Place { at: at + 1 }))
    }

    pub fn two(self, s: &[u8]) -> Option<(usize, Place)>
        ensures { result ≡ number_at 2 s.now self.at }
    {
        let at = self.at;
        if s.len() <= at {
            return None;
        }
        if s.len() - at < 2 {
            return None;
        }
        Some((two_at(s, at), Place { at: at + 2 }))
    }

    pub fn four(self, s: &[u8]) -> Option<(usize, Place)>
        ensures { result ≡ number_at 4 s.now self.at }
    {
        let at = self.at;
        if s.len() <= at {
            return None;
        }
        if s.len() - at < 4 {
            return None;
        }
        Some((four_at(s, at), Place { at: at + 4 }))
    }

    // The stretch of so many bytes at the place.
    pub fn part(self, s: &[u8], len: usize) -> Option<(Span, Place)>
        ensures { result ≡ part_at len s.now self.at }
    {
        let at = self.at;
        if s.len() < at {
            return None;
        }
        if s.len() - at < len {
            return None;
        }
        let found = Span {
            start: at,
            len: len,
        };
        Some((found, Place { at: at + len }))
    }

    // An object's number from `least` to 255, where the bit of a weight stands in the map.
    pub fn object(self, s: &[u8], map: usize, weight: usize, least: usize) -> Option<(usize, Place)>
        requires { 0 < weight }
        ensures { result ≡ object_at (stands_in map weight) least s.now self.at }
    {
        if stands(map, weight) {
            let Some((v, next)) = self.two(s) else {
                return None;
            };
            if in_limits(v, least, 255) {
                return Some((v, next));
            }
            return None;
        }
        Some((0, self))
    }

    // An offset of 4 bytes, field 6.
    pub fn offset(self, s: &[u8], map: usize) -> Option<(usize, Place)>
        ensures { result ≡ offset_at (stands_in map 64) s.now self.at }
    {
        if stands(map, 64) {
            return self.four(s);
        }
        Some((0, self))
    }

    // A name behind its length, where the bit of a weight stands in the map.
    pub fn name(self, s: &[u8], map: usize, weight: usize) -> Option<(Span, Place)>
        requires { 0 < weight }
        ensures { result ≡ name_at (stands_in map weight) s.now self.at }
    {
        if stands(map, weight) {
            let Some((len, p)) = self.one(s) else {
                return None;
            };
            let Some((found, next)) = p.part(s, len) else {
                return None;
            };
            return match name_text(stretch_of(s, found.start, found.len)) {
                Ok(()) => Some((found, next)),
                Err(_) => None,
            };
        }
        Some((NOWHERE, self))
    }

    // Data of 1..1,024 bytes behind their length, field 7.
    pub fn block(self, s: &[u8], map: usize) -> Option<(Span, Place)>
        ensures { result ≡ block_at (stands_in map 128) s.now self.at }
    {
        if stands(map, 128) {
            let Some((len, p)) = self.two(s) else {
                return None;
            };
            if in_limits(len, 1, BLOCK) {
                return p.part(s, len);
            }
            return None;
        }
        Some((NOWHERE, self))
    }

    // A list of 1..8 different objects behind their count, field 8.
    pub fn list(self, s: &[u8], map: usize) -> Option<(Span, Place)>
        ensures { result ≡ list_at (stands_in map 256) s.now self.at }
    {
        if stands(map, 256) {
            let Some((count, p)) = self.one(s) else {
                return None;
            };
            let Some((found, next)) = p.part(s, count + count) else {
                return None;
            };
            if good_list(stretch_of(s, found.start, found.len)) {
                return Some((found, next));
            }
            return None;
        }
        Some((NOWHERE, self))
    }

    // The map, sequence, program and kind, with the map one of the kind's.
    pub fn head(self, s: &[u8]) -> Option<(Head, Place)>
        ensures { result ≡ head_at s.now self.at }
    {
        let Some((map, p)) = self.two(s) else {
            return None;
        };
        let Some((sequence, q)) = p.four(s) else {
            return None;
        };
        let Some((program, r)) = q.one(s) else {
            return None;
        };
        let Some((code, t)) = r.one(s) else {
            return None;
        };
        checked_head(map, sequence, program, code, t)
    }

    // Fields 0 to 3.
    pub fn objects(self, s: &[u8], map: usize) -> Option<(Objects, Place)>
        ensures { result ≡ objects_at map s.now self.at }
    {
        let Some((object, p)) = self.object(s, map, 1, 1) else {
            return None;
        };
        let Some((parent, q)) = p.object(s, map, 2, 0) else {
            return None;
        };
        let Some((second, r)) = q.object(s, map, 4, 0) else {
            return None;
        };
        let Some((displaced, t)) = r.object(s, map, 8, 1) else {
            return None;
        };
        let found = Objects {
            object,
            parent,
            second,
            displaced,
        };
        Some((found, t))
    }

    // Fields 4 and 5.
    pub fn names(self, s: &[u8], map: usize) -> Option<(Names, Place)>
        ensures { result ≡ names_at map s.now self.at }
    {
        let Some((name, p)) = self.name(s, map, 16) else {
            return None;
        };
        let Some((second, q)) = p.name(s, map, 32) else {
            return None;
        };
        Some((Names { name, second }, q))
    }

    // Fields 6 to 8.
    pub fn range(self, s: &[u8], map: usize) -> Option<(Range, Place)>
        ensures { result ≡ range_at map s.now self.at }
    {
        let Some((offset, p)) = self.offset(s, map) else {
            return None;
        };
        let Some((content, q)) = p.block(s, map) else {
            return None;
        };
        let Some((list, r)) = q.list(s, map) else {
            return None;
        };
        let found = Range {
            offset,
            content,
            list,
        };
        Some((found, r))
    }

    // The whole record at the place; none is the refusal 20.
    pub fn record(self, s: &[u8]) -> Option<Whole>
        ensures { result ≡ record_at s.now self.at }
    {
        let Some((head, p)) = self.head(s) else {
            return None;
        };
        let map = head.map;
        let Some((objects, q)) = p.objects(s, map) else {
            return None;
        };
        let Some((names, r)) = q.names(s, map) else {
            return None;
        };
        let Some((range, t)) = r.range(s, map) else {
            return None;
        };
        if tied(map, objects, range) {
            return Some(Whole {
                head,
                objects,
                names,
                range,
                next: t,
            });
        }
        None
    }
}

// What stands at a place of a buffer, both ways: the one valid record whose bytes begin there, with where its parts lie and
// the place after it; or, exactly if there is none, the refusal 20. Any buffer, any place.
pub fn read_record(s: &[u8], at: usize) -> Option<Whole>
    ensures value { result ≡ record_at s.now at }
    ensures exact { Exact s.now at result }
{
    let start = Place { at: at };
    start.record(s)
}

// A head with its limits checked, and with "the map of its kind".
fn checked_head(
    map: usize,
    sequence: usize,
    program: usize,
    code: usize,
    next: Place,
) -> Option<(Head, Place)>
    ensures { result ≡ head_of map sequence program (kind_of_code code) next }
{
    let Some(kind) = Kind::of_code(code) else {
        return None;
    };
    if valid_head(sequence, program) {
        if kind.has_map(map) {
            let head = Head {
                map,
                sequence,
                program,
                kind,
            };
            return Some((head, next));
        }
    }
    None
}

// What ties two fields.
fn tied(map: usize, objects: Objects, range: Range) -> bool
    ensures { result ≡ tied_at map objects range }
{
    let content = range.content;
    if differ(map, objects.object, objects.displaced) {
        return in_block(map, range.offset, content.len);
    }
    false
}
