// Plays a call script from standard input and prints the answers.
#![tactic(auto)]

mod calls;

ghost use Rattle.script_commands.specs.Room.{Areas, Room};

use calls::make_call;
use script_commands::commands::State;
use script_commands::front::front;
use script_player::input::next_line;
use script_player::play::{Turn, play, tell_answer};
use script_words::command::Call;
use std::io::{self, Write};

// Makes a call on the first bytes of the areas, and writes its answer. Fails where the answer cannot be written, with the write's
// error: the call has been made then as on `Ok`, and what the output holds is for the writer to say.
fn play_call<W: Write>(
    output: &mut W,
    call: Call,
    state: State,
    s: &mut [u8],
    v: &mut [u8],
    l: &mut [u8],
    first: &mut [u8],
    second: &[u8],
) -> io::Result<()>
    requires { Areas s.old v.old l.old × Room first.old second.now }
    ensures left { Areas s.new v.new l.new × Room first.new second.now }
{
    let lengths = state.lengths;
    let server = front(lengths.server, s);
    let view = front(lengths.view, v);
    let log = front(lengths.log, l);
    let answer = make_call(
        call,
        state.given,
        &mut s[..server],
        &mut v[..view],
        &mut l[..log],
        first,
        second,
    );
    tell_answer(output, &answer, first)
}

// Plays the lines one after the other. It ends after the largest number of lines that there is.
fn main(rt: HostRuntime) -> io::Result<()> {
    let mut input = rt.stdin();
    let mut output = rt.stdout();
    let mut buf = [0u8; 65536];
    let mut s = [0u8; 32768];
    let mut v = [0u8; 32768];
    let mut l = [0u8; 32768];
    let mut first = [0u8; 2048];
    let mut second = [0u8; 2048];
    let mut state = State::default();
    let mut at: usize = 0;
    let mut held: usize = 0;
    for lines in 0..u64::MAX {
        let line = next_line(&mut input, &mut buf, at, held)?;
        let turn = play(
            &mut output,
            &buf[line.start..line.end],
            lines + 1,
            &mut state,
            &mut s,
            &mut v,
            &mut l,
            &mut first,
            &mut second,
        )?;
        match turn {
            Turn::Call(call) => play_call(
                &mut output,
                call,
                state,
                &mut s,
                &mut v,
                &mut l,
                &mut first,
                &second,
            )?,
            Turn::Next => {}
            Turn::End => return Ok(()),
        }
        if line.last {
            return Ok(());
        }
        at = line.next;
        held = line.held;
    }
    Ok(())
}
