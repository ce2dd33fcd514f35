// "Records fit n and b": whether a record that was read fits the geometry, as the log's form asks.
ghost use Rattle.std.specs.Prelude.{◌≡◌, ◌≤◌};
ghost use Rattle.record_reader.specs.Code.Fit.{below_if, objects_below, fits_whole};

use crate::{Objects, Whole};
use buffer::span::stretch_of;
use record_valid::list::list_below;
use record_valid::valid::{stands, within_blocks};

// Whether an object is below n, where its bit stands.
fn below_if(n: usize, map: usize, weight: usize, object: usize) -> bool
    requires { 1 ≤ weight }
    ensures { result ≡ below_if n map weight object }
{
    if stands(map, weight) {
        return object < n;
    }
    true
}

// Whether the objects of fields 0 to 3 are below n.
fn objects_below(n: usize, map: usize, objects: Objects) -> bool
    ensures { result ≡ objects_below n map objects }
{
    if below_if(n, map, 1, objects.object) {
        if below_if(n, map, 2, objects.parent) {
            if below_if(n, map, 4, objects.second) {
                return below_if(n, map, 8, objects.displaced);
            }
        }
    }
    false
}

// Whether what was read of a record fits n objects and b blocks.
pub fn fits(s: &[u8], w: Whole, n: usize, b: usize) -> bool
    requires { b ≤ 64 }
    ensures { result ≡ fits_whole n b s.now w }
{
    let head = w.head;
    let objects = w.objects;
    let range = w.range;
    let list = range.list;
    let content = range.content;
    if objects_below(n, head.map, objects) {
        if list_below(stretch_of(s, list.start, list.len), n) {
            return within_blocks(b, range.offset, content.len);
        }
    }
    false
}
