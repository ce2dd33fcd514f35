// The command of a word, with the arguments behind it.
ghost use Rattle.std.specs.Prelude.{◌≤◌, length};

use crate::arguments::Arguments;
use script_words::command::{Call, Change, Command, Control, Operation, Play, Question};

// The command of a word: one on the areas and the numbers given, or else a call.
pub(crate) fn read_command(
    word: &[u8],
    a: &mut Arguments<'_>,
    first: &mut [u8],
    second: &mut [u8],
) -> Option<Command>
    requires { (2048 ≤ length first.old) × (2048 ≤ length second.old) }
{
    let play = match word {
        b"give" => Play::Give(a.given()?),
        b"size" => Play::Size {
            server: a.number()?,
            view: a.number()?,
            log: a.number()?,
        },
        b"fit" => Play::Fit,
        b"poke" => Play::Poke {
            area: a.area()?,
            at: a.number()?,
            bytes: a.bytes(first)?,
        },
        b"copy" => Play::Copy {
            to: a.area()?,
            from: a.area()?,
        },
        b"show" => Play::Show {
            area: a.area()?,
            at: a.number()?,
            count: a.number()?,
        },
        b"digest" => Play::Digest,
        _ => return Some(Command::Call(read_call(word, a, first, second)?)),
    };
    Some(Command::Play(play))
}

// A call: one that sets up, sends or gives up, or else a question or an operation.
fn read_call(
    word: &[u8],
    a: &mut Arguments<'_>,
    first: &mut [u8],
    second: &mut [u8],
) -> Option<Call>
    requires { (2048 ≤ length first.old) × (2048 ≤ length second.old) }
{
    let control = match word {
        b"format" => Control::Format,
        b"mount" => Control::Mount,
        b"push" => Control::Push {
            sequence: a.number()?,
        },
        b"fsync" => Control::Fsync {
            object: a.object()?,
            sends: a.number()?,
        },
        b"cut" => Control::Cut,
        b"renew" => Control::Renew {
            program: a.number()?,
        },
        _ => return read_question(word, a, first, second),
    };
    Some(Call::Control(control))
}

// A question, or else an operation.
fn read_question(
    word: &[u8],
    a: &mut Arguments<'_>,
    first: &mut [u8],
    second: &mut [u8],
) -> Option<Call>
    requires { (2048 ≤ length first.old) × (2048 ≤ length second.old) }
{
    let question = match word {
        b"lookup" => Question::Lookup {
            program: a.number()?,
            path: a.bytes(first)?,
        },
        b"list" => Question::List {
            object: a.object()?,
            buffer: a.bytes(first)?,
        },
        b"stat" => Question::Stat(a.object()?),
        b"read" => Question::Read {
            object: a.object()?,
            at: a.number()?,
            buffer: a.bytes(first)?,
        },
        b"take" => Question::Take {
            program: a.number()?,
            buffer: a.bytes(first)?,
        },
        b"record" => Question::Record {
            at: a.number()?,
            bytes: a.bytes(first)?,
        },
        _ => return Some(Call::Operation(read_operation(word, a, first, second)?)),
    };
    Some(Call::Question(question))
}

// An operation.
fn read_operation(
    word: &[u8],
    a: &mut Arguments<'_>,
    first: &mut [u8],
    second: &mut [u8],
) -> Option<Operation>
    requires { (2048 ≤ length first.old) × (2048 ≤ length second.old) }
{
    Some(match word {
        b"create" => Operation::Name(a.entry(first)?, Change::Create(a.number()?)),
        b"mkdir" => Operation::Name(a.entry(first)?, Change::Mkdir(a.number()?)),
        b"rmfile" => Operation::Name(a.entry(first)?, Change::Rmfile),
        b"rmdir" => Operation::Name(a.entry(first)?, Change::Rmdir),
        b"rename" => Operation::Name(
            a.entry(first)?,
            Change::Rename {
                to: a.number()?,
                name: a.bytes(second)?,
            },
        ),
        b"write" => Operation::Write {
            object: a.object()?,
            at: a.number()?,
            bytes: a.bytes(first)?,
        },
        b"setlen" => Operation::Setlen {
            object: a.object()?,
            length: a.number()?,
        },
        b"forder" => Operation::Forder {
            program: a.number()?,
            list: a.bytes(first)?,
        },
        _ => return None,
    })
}
