// What makes a record valid, number by number (document 01, "Loss record": "Valid"), and what fits b blocks.
ghost use Rattle.std.specs.Prelude.{◌≡◌, ◌<◌, ◌≤◌};
ghost use Rattle.record.specs.Fields.{stands_in, between, valid_head, differing, in_block, within_blocks};

use buffer::BLOCK;

// Whether the bit of a weight stands in a map.
pub fn stands(map: usize, weight: usize) -> bool
    requires { 0 < weight }
    ensures { result ≡ stands_in map weight }
{
    map / weight % 2 == 1
}

// Whether a number is at least the one limit and at most the other.
pub fn in_limits(v: usize, least: usize, most: usize) -> bool
    ensures { result ≡ between least most v }
{
    least <= v && v <= most
}

// "sequence 1..4,294,967,294; program 0..31".
#[tactic(auto, unfolding(record::specs::Fields::valid_head))]
pub fn valid_head(sequence: usize, program: usize) -> bool
    ensures { result ≡ valid_head sequence program }
{
    in_limits(sequence, 1, 4294967294) && in_limits(program, 0, 31)
}

// "object and displaced .. different", where an object is displaced.
#[tactic(auto, unfolding(record::specs::Fields::differing))]
pub fn differ(map: usize, object: usize, displaced: usize) -> bool
    ensures { result ≡ differing map object displaced }
{
    !stands(map, 8) || object != displaced
}

// "data .. in one block; offset plus data, or new length, at most 65,536", where there is an offset.
#[tactic(auto, unfolding(record::specs::Fields::in_block))]
pub fn in_block(map: usize, offset: usize, len: usize) -> bool
    ensures { result ≡ in_block map offset len }
{
    if !stands(map, 64) {
        return true;
    }
    offset <= 65536 && len <= 65536 - offset && len <= BLOCK - offset % BLOCK
}

// Whether data of a length at an offset, or a new length with no data, end within b blocks.
#[tactic(auto, unfolding(record::specs::Fields::within_blocks))]
pub fn within_blocks(b: usize, offset: usize, len: usize) -> bool
    requires { b ≤ 64 }
    ensures { result ≡ within_blocks b offset len }
{
    let room = BLOCK * b;
    offset <= room && len <= room - offset
}
