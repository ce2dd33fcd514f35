// One line played, up to the call that it makes.
ghost use Rattle.std.specs.Prelude.{◌≡◌, ◌≤◌, true, IfOk, OnOk, length};
ghost use Rattle.script_arguments.specs.Blank.{blank};
ghost use Rattle.script_commands.specs.Room.{Areas, Room};
ghost use Rattle.script_player.specs.Line.{Grown};
ghost use Rattle.script_player.specs.Turns.{calls};

use script_arguments::line::read_line;
use script_commands::answer::{Answer, put_answer, put_bad};
use script_commands::commands::{State, play_areas};
use script_words::command::{BadLine, Call, Command};
use std::io::{self, Write};

// What is to be done after a line.
#[derive(Clone, Copy)]
pub enum Turn {
    // Its call is to be made.
    Call(Call),
    // The next line is to be played.
    Next,
    // Nothing more: it was a bad line.
    End,
}

// Plays a line, but for its call, and says how many bytes it prints and what is to be done.
fn play_line(
    line: &[u8],
    state: &mut State,
    s: &mut [u8],
    v: &mut [u8],
    l: &mut [u8],
    first: &mut [u8],
    second: &mut [u8],
    out: &mut [u8],
) -> Result<(usize, Turn), BadLine>
    requires { Areas s.old v.old l.old × Room first.old second.old × (4352 ≤ length out.old) }
    ensures within { IfOk result (λ played. played.0 ≤ length out.old) }
    ensures silent { IfOk result (λ played. calls played.1 ≡ true → played.0 ≡ 0) }
    ensures nothing { length line.now ≤ 8191 → blank line.now ≡ true → IfOk result (λ played. played.0 ≡ 0) }
{
    match read_line(line, first, second)? {
        None => Ok((0, Turn::Next)),
        Some(Command::Call(call)) => Ok((0, Turn::Call(call))),
        Some(Command::Play(play)) => {
            let written = play_areas(play, state, s, v, l, first, out).ok_or(BadLine)?;
            Ok((written, Turn::Next))
        }
    }
}

// The same, where a bad line prints `bad line` and its number.
fn play_any(
    line: &[u8],
    number: u64,
    state: &mut State,
    s: &mut [u8],
    v: &mut [u8],
    l: &mut [u8],
    first: &mut [u8],
    second: &mut [u8],
    out: &mut [u8],
) -> (usize, Turn)
    requires { Areas s.old v.old l.old × Room first.old second.old × (4352 ≤ length out.old) }
    ensures within { result.0 ≤ length out.old }
    ensures silent { calls result.1 ≡ true → result.0 ≡ 0 }
{
    match play_line(line, state, s, v, l, first, second, out) {
        Ok(played) => played,
        Err(BadLine) => (put_bad(number, out), Turn::End),
    }
}

// Plays a line, given with its number and without its newline, and writes what it prints. Fails where that cannot be written,
// with the write's error: its command has been played then as on `Ok`, and what the output holds is for the writer to say.
pub fn play<W: Write>(
    output: &mut W,
    line: &[u8],
    number: u64,
    state: &mut State,
    s: &mut [u8],
    v: &mut [u8],
    l: &mut [u8],
    first: &mut [u8],
    second: &mut [u8],
) -> io::Result<Turn>
    requires { Areas s.old v.old l.old × Room first.old second.old }
    ensures printed { OnOk result (Grown (W.contents output.old) (W.contents output.new)) }
    ensures left { Areas s.new v.new l.new × Room first.new second.new }
{
    let mut out = [0u8; 4352];
    let (written, turn) = play_any(line, number, state, s, v, l, first, second, &mut out);
    output.write_all(&out[..written])?;
    Ok(turn)
}

// Writes the line of a call, which shows of its buffer what was lent. Fails where it cannot be written, with the write's error; it
// changes the output alone, and what that then holds is for the writer to say.
pub fn tell_answer<W: Write>(output: &mut W, answer: &Answer, buffer: &[u8]) -> io::Result<()>
    requires { length buffer.now ≤ 2048 }
    ensures { OnOk result (Grown (W.contents output.old) (W.contents output.new)) }
{
    let mut out = [0u8; 4352];
    let end = put_answer(answer, buffer, &mut out);
    output.write_all(&out[..end])
}
