// The commands on the areas and on the numbers given.
ghost use Rattle.std.specs.Prelude.{◌≡◌, ◌≤◌, IfSome, false, length};
ghost use Rattle.script_commands.specs.Room.{Areas};
ghost use Rattle.script_commands.specs.Prints.{prints};

use crate::answer::{Answer, put_answer};
use crate::front::front;
use script_areas::bytes::{copy, poke, show};
use script_areas::digest::digest;
use script_areas::length::{Lengths, lent_lengths, log_bytes, volume_bytes};
use script_words::command::{Area, Given, Play};

// What stays from line to line: the numbers passed in every call, and the lengths lent of the areas.
#[derive(Clone, Copy, Default)]
pub struct State {
    pub given: Given,
    pub lengths: Lengths,
}

// The lengths that the numbers given ask for.
pub fn fitted(given: Given) -> Option<Lengths> {
    let volume = volume_bytes(given.n, given.b)?;
    lent_lengths(volume, volume, log_bytes(given.m)?)
}

// Writes into an area; none, where the bytes run over its end.
fn poke_area(
    area: Area,
    at: u64,
    bytes: &[u8],
    s: &mut [u8],
    v: &mut [u8],
    l: &mut [u8],
) -> Option<()> {
    match area {
        Area::Server => poke(s, at, bytes),
        Area::View => poke(v, at, bytes),
        Area::Log => poke(l, at, bytes),
    }
}

// Copies an area over another; one copied onto itself stays.
pub fn copy_area(to: Area, from: Area, s: &mut [u8], v: &mut [u8], l: &mut [u8])
    requires { Areas s.old v.old l.old }
{
    match (to, from) {
        (Area::Server, Area::View) => copy(s, v),
        (Area::Server, Area::Log) => copy(s, l),
        (Area::View, Area::Server) => copy(v, s),
        (Area::View, Area::Log) => copy(v, l),
        (Area::Log, Area::Server) => copy(l, s),
        (Area::Log, Area::View) => copy(l, v),
        (Area::Server, Area::Server) | (Area::View, Area::View) | (Area::Log, Area::Log) => {}
    }
}

// An area.
fn area_of<'a>(area: Area, s: &'a [u8], v: &'a [u8], l: &'a [u8]) -> &'a [u8] {
    match area {
        Area::Server => s,
        Area::View => v,
        Area::Log => l,
    }
}

// The line of `digest`.
fn put_digests(s: &[u8], v: &[u8], l: &[u8], out: &mut [u8]) -> usize
    requires { 4352 ≤ length out.old }
    ensures { result ≤ length out.old }
{
    let answer = Answer::Digests([digest(s), digest(v), digest(l)]);
    put_answer(&answer, b"", out)
}

// Plays a command that is no call, and says how many bytes it prints; none, where its line is bad.
pub fn play_areas(
    play: Play,
    state: &mut State,
    s: &mut [u8],
    v: &mut [u8],
    l: &mut [u8],
    first: &[u8],
    out: &mut [u8],
) -> Option<usize>
    requires { Areas s.old v.old l.old × (4352 ≤ length out.old) }
    ensures within { IfSome result (λ written. written ≤ length out.old) }
    ensures silent { IfSome result (λ written. prints play ≡ false → written ≡ 0) }
{
    match play {
        Play::Give(given) => state.given = given,
        Play::Size { server, view, log } => state.lengths = lent_lengths(server, view, log)?,
        Play::Fit => state.lengths = fitted(state.given)?,
        Play::Poke { area, at, bytes } => {
            let n = front(bytes, first);
            poke_area(area, at, &first[..n], s, v, l)?;
        }
        Play::Copy { to, from } => copy_area(to, from, s, v, l),
        Play::Show { area, at, count } => return show(area_of(area, s, v, l), at, count, out),
        Play::Digest => return Some(put_digests(s, v, l, out)),
    }
    Some(0)
}
