// The calls, each on the parts of the areas that are lent.
use returned::{Code, Status, Value};
use script_commands::answer::Answer;
use script_commands::front::front;
use script_words::command::{Call, Change, Control, Entry, Given, Operation, Question};
use writebehind::loss::Loss;
use writebehind::{
    wb_create, wb_cut, wb_forder, wb_format, wb_fsync, wb_list, wb_lookup, wb_mkdir, wb_mount,
    wb_push, wb_read, wb_record, wb_remove_directory, wb_remove_file, wb_rename, wb_renew,
    wb_setlen, wb_stat, wb_take, wb_write,
};

// A call that returns its code alone.
fn code(r: Code) -> Answer {
    Answer::Code([r.returned])
}

// A call with one more result.
fn value(r: Value) -> Answer {
    Answer::Value([r.returned, r.value])
}

// A call with one more result and its buffer, of which so many bytes were lent.
fn shown(r: Value, lent: usize) -> Answer {
    Answer::Shown([r.returned, r.value], lent)
}

// `stat` has three more results.
fn status(r: Status) -> Answer {
    Answer::Status([r.returned, r.kind, r.length, r.usage])
}

// `record` has four more results.
fn loss(r: Loss) -> Answer {
    Answer::Loss([r.returned, r.next, r.sequence, r.program, r.kind])
}

// So many of the bytes of a buffer, or as many as there are.
fn head(s: &[u8], n: usize) -> &[u8] {
    &s[..front(n, s)]
}

fn head_mut(s: &mut [u8], n: usize) -> &mut [u8] {
    let end = front(n, s);
    &mut s[..end]
}

// A call that sets up, sends or gives up.
fn call_control(
    c: Control,
    given: Given,
    server: &mut [u8],
    view: &mut [u8],
    log: &mut [u8],
) -> Answer {
    let Given { n, b, m } = given;
    match c {
        Control::Format => code(wb_format(n, b, m, server)),
        Control::Mount => code(wb_mount(n, b, m, server, view, log)),
        Control::Push { sequence } => code(wb_push(n, b, m, server, view, log, sequence)),
        Control::Fsync { object: o, sends } => value(wb_fsync(
            n, b, m, server, view, log, o.program, o.number, sends,
        )),
        Control::Cut => code(wb_cut(n, b, m, server, view, log)),
        Control::Renew { program } => code(wb_renew(n, b, m, server, view, log, program)),
    }
}

// A call that asks.
fn call_question(
    c: Question,
    given: Given,
    server: &[u8],
    view: &[u8],
    log: &mut [u8],
    first: &mut [u8],
) -> Answer {
    let Given { n, b, m } = given;
    match c {
        Question::Lookup { program, path } => {
            let path = head(first, path);
            value(wb_lookup(n, b, m, server, view, log, program, path))
        }
        Question::List { object: o, buffer } => {
            let list = head_mut(first, buffer);
            let r = wb_list(n, b, m, server, view, log, o.program, o.number, list);
            shown(r, buffer)
        }
        Question::Stat(o) => status(wb_stat(n, b, m, server, view, log, o.program, o.number)),
        Question::Read {
            object: o,
            at,
            buffer,
        } => {
            let data = head_mut(first, buffer);
            let r = wb_read(n, b, m, server, view, log, o.program, o.number, at, data);
            shown(r, buffer)
        }
        Question::Take { program, buffer } => {
            let records = head_mut(first, buffer);
            let r = wb_take(n, b, m, server, view, log, program, records);
            shown(r, buffer)
        }
        Question::Record { at, bytes } => loss(wb_record(at, head(first, bytes))),
    }
}

// A call that issues an operation.
fn call_operation(
    c: Operation,
    given: Given,
    server: &[u8],
    view: &mut [u8],
    log: &mut [u8],
    first: &[u8],
    second: &[u8],
) -> Value {
    let Given { n, b, m } = given;
    match c {
        Operation::Name(e, c) => call_name(e, c, given, server, view, log, first, second),
        Operation::Write {
            object: o,
            at,
            bytes,
        } => {
            let data = head(first, bytes);
            wb_write(n, b, m, server, view, log, o.program, o.number, at, data)
        }
        Operation::Setlen { object: o, length } => {
            wb_setlen(n, b, m, server, view, log, o.program, o.number, length)
        }
        Operation::Forder { program, list } => {
            wb_forder(n, b, m, server, view, log, program, head(first, list))
        }
    }
}

// A call that issues an operation on a name.
fn call_name(
    e: Entry,
    c: Change,
    given: Given,
    server: &[u8],
    view: &mut [u8],
    log: &mut [u8],
    first: &[u8],
    second: &[u8],
) -> Value {
    let Given { n, b, m } = given;
    let old = head(first, e.name);
    match c {
        Change::Create(object) => {
            wb_create(n, b, m, server, view, log, e.program, e.parent, old, object)
        }
        Change::Mkdir(object) => {
            wb_mkdir(n, b, m, server, view, log, e.program, e.parent, old, object)
        }
        Change::Rmfile => wb_remove_file(n, b, m, server, view, log, e.program, e.parent, old),
        Change::Rmdir => wb_remove_directory(n, b, m, server, view, log, e.program, e.parent, old),
        Change::Rename { to, name } => {
            let new = head(second, name);
            wb_rename(
                n, b, m, server, view, log, e.program, e.parent, old, to, new,
            )
        }
    }
}

// Makes a call.
pub(crate) fn make_call(
    call: Call,
    given: Given,
    server: &mut [u8],
    view: &mut [u8],
    log: &mut [u8],
    first: &mut [u8],
    second: &[u8],
) -> Answer {
    match call {
        Call::Control(c) => call_control(c, given, server, view, log),
        Call::Question(c) => call_question(c, given, server, view, log, first),
        Call::Operation(c) => value(call_operation(c, given, server, view, log, first, second)),
    }
}
