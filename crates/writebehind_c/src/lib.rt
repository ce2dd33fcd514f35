// The exports of the archive for a host in C, declared and described in include/writebehind.h: each hands a call on to the entry of its
// name in crate writebehind, and has its contract.
#![tactic(auto)]

ghost use Rattle.std.specs.Prelude.{◌≡◌, [], ◌∷◌, drop};
ghost use Rattle.record.specs.Decode.{decode_record};
ghost use Rattle.session.specs.Call.{geometry, buffers, issuer};
ghost use Rattle.session.specs.Call;
ghost use Rattle.session.specs.Step.{given, step, format, format_leaves, mount};
ghost use Rattle.writebehind.specs.Loss.{loss_of};

use returned::{Code, Status, Value};
use writebehind::loss::Loss;

// "Format makes a server volume with only a root."
#[unsafe(no_mangle)]
pub extern "C" fn wb_format(n: u64, b: u64, m: u64, server: &mut [u8]) -> Code
    ensures returned { result.returned ≡ format (geometry n b m) server.old }
    ensures volume { server.new ≡ format_leaves (geometry n b m) server.old }
{
    writebehind::wb_format(n, b, m, server)
}

// "Mount checks the server volume, copies it to the view and begins an empty log".
#[unsafe(no_mangle)]
pub extern "C" fn wb_mount(
    n: u64,
    b: u64,
    m: u64,
    server: &[u8],
    view: &mut [u8],
    log: &mut [u8],
) -> Code
    ensures { given result.returned [] [] (buffers server.now view.new log.new)
        ≡ mount (geometry n b m) (buffers server.now view.old log.old) }
{
    writebehind::wb_mount(n, b, m, server, view, log)
}

// "Lookup alone takes a path and gives an object number."
#[unsafe(no_mangle)]
pub extern "C" fn wb_lookup(
    n: u64,
    b: u64,
    m: u64,
    server: &[u8],
    view: &[u8],
    log: &mut [u8],
    program: u64,
    path: &[u8],
) -> Value
    ensures { given result.returned (result.value ∷ []) [] (buffers server.now view.now log.new)
        ≡ step (geometry n b m) (Call.lookup program path.now) (buffers server.now view.now log.old) }
{
    writebehind::wb_lookup(n, b, m, server, view, log, program, path)
}

// The children of a directory, into a buffer.
#[unsafe(no_mangle)]
pub extern "C" fn wb_list(
    n: u64,
    b: u64,
    m: u64,
    server: &[u8],
    view: &[u8],
    log: &mut [u8],
    program: u64,
    object: u64,
    buffer: &mut [u8],
) -> Value
    ensures { given result.returned (result.value ∷ []) buffer.new (buffers server.now view.now log.new)
        ≡ step (geometry n b m) (Call.list program object buffer.old) (buffers server.now view.now log.old) }
{
    writebehind::wb_list(n, b, m, server, view, log, program, object, buffer)
}

// Kind, length and usage of an object.
#[unsafe(no_mangle)]
pub extern "C" fn wb_stat(
    n: u64,
    b: u64,
    m: u64,
    server: &[u8],
    view: &[u8],
    log: &mut [u8],
    program: u64,
    object: u64,
) -> Status
    ensures { given result.returned (result.kind ∷ result.length ∷ result.usage ∷ []) [] (buffers server.now view.now log.new)
        ≡ step (geometry n b m) (Call.stat program object) (buffers server.now view.now log.old) }
{
    writebehind::wb_stat(n, b, m, server, view, log, program, object)
}

// Bytes of a file, into a buffer.
#[unsafe(no_mangle)]
pub extern "C" fn wb_read(
    n: u64,
    b: u64,
    m: u64,
    server: &[u8],
    view: &[u8],
    log: &mut [u8],
    program: u64,
    object: u64,
    offset: u64,
    buffer: &mut [u8],
) -> Value
    ensures { given result.returned (result.value ∷ []) buffer.new (buffers server.now view.now log.new)
        ≡ step (geometry n b m) (Call.read program object offset buffer.old) (buffers server.now view.now log.old) }
{
    writebehind::wb_read(n, b, m, server, view, log, program, object, offset, buffer)
}

// An empty file.
#[unsafe(no_mangle)]
pub extern "C" fn wb_create(
    n: u64,
    b: u64,
    m: u64,
    server: &[u8],
    view: &mut [u8],
    log: &mut [u8],
    program: u64,
    parent: u64,
    name: &[u8],
    object: u64,
) -> Value
    ensures { given result.returned (result.value ∷ []) [] (buffers server.now view.new log.new)
        ≡ step (geometry n b m) (Call.create_file (issuer program) parent name.now object) (buffers server.now view.old log.old) }
{
    writebehind::wb_create(n, b, m, server, view, log, program, parent, name, object)
}

// An empty directory.
#[unsafe(no_mangle)]
pub extern "C" fn wb_mkdir(
    n: u64,
    b: u64,
    m: u64,
    server: &[u8],
    view: &mut [u8],
    log: &mut [u8],
    program: u64,
    parent: u64,
    name: &[u8],
    object: u64,
) -> Value
    ensures { given result.returned (result.value ∷ []) [] (buffers server.now view.new log.new)
        ≡ step (geometry n b m) (Call.make_directory (issuer program) parent name.now object) (buffers server.now view.old log.old) }
{
    writebehind::wb_mkdir(n, b, m, server, view, log, program, parent, name, object)
}

// "Remove file takes only files" (document 02, K4).
#[unsafe(no_mangle)]
pub extern "C" fn wb_remove_file(
    n: u64,
    b: u64,
    m: u64,
    server: &[u8],
    view: &mut [u8],
    log: &mut [u8],
    program: u64,
    parent: u64,
    name: &[u8],
) -> Value
    ensures { given result.returned (result.value ∷ []) [] (buffers server.now view.new log.new)
        ≡ step (geometry n b m) (Call.remove_file (issuer program) parent name.now) (buffers server.now view.old log.old) }
{
    writebehind::wb_remove_file(n, b, m, server, view, log, program, parent, name)
}

// "remove directory only empty directories" (document 02, K4).
#[unsafe(no_mangle)]
pub extern "C" fn wb_remove_directory(
    n: u64,
    b: u64,
    m: u64,
    server: &[u8],
    view: &mut [u8],
    log: &mut [u8],
    program: u64,
    parent: u64,
    name: &[u8],
) -> Value
    ensures { given result.returned (result.value ∷ []) [] (buffers server.now view.new log.new)
        ≡ step (geometry n b m) (Call.remove_directory (issuer program) parent name.now) (buffers server.now view.old log.old) }
{
    writebehind::wb_remove_directory(n, b, m, server, view, log, program, parent, name)
}

// "Rename replaces a file by a file or an empty directory by a directory."
#[unsafe(no_mangle)]
pub extern "C" fn wb_rename(
    n: u64,
    b: u64,
    m: u64,
    server: &[u8],
    view: &mut [u8],
    log: &mut [u8],
    program: u64,
    parent: u64,
    name: &[u8],
    second_parent: u64,
    second_name: &[u8],
) -> Value
    ensures { given result.returned (result.value ∷ []) [] (buffers server.now view.new log.new)
        ≡ step (geometry n b m) (Call.rename (issuer program) parent name.now second_parent second_name.now) (buffers server.now view.old log.old) }
{
    writebehind::wb_rename(
        n,
        b,
        m,
        server,
        view,
        log,
        program,
        parent,
        name,
        second_parent,
        second_name,
    )
}

// An overwrite or an append, in one block.
#[unsafe(no_mangle)]
pub extern "C" fn wb_write(
    n: u64,
    b: u64,
    m: u64,
    server: &[u8],
    view: &mut [u8],
    log: &mut [u8],
    program: u64,
    object: u64,
    offset: u64,
    data: &[u8],
) -> Value
    ensures { given result.returned (result.value ∷ []) [] (buffers server.now view.new log.new)
        ≡ step (geometry n b m) (Call.write (issuer program) object offset «data».now) (buffers server.now view.old log.old) }
{
    writebehind::wb_write(n, b, m, server, view, log, program, object, offset, data)
}

// "Set length zeroes what it cuts off or adds."
#[unsafe(no_mangle)]
pub extern "C" fn wb_setlen(
    n: u64,
    b: u64,
    m: u64,
    server: &[u8],
    view: &mut [u8],
    log: &mut [u8],
    program: u64,
    object: u64,
    length: u64,
) -> Value
    ensures { given result.returned (result.value ∷ []) [] (buffers server.now view.new log.new)
        ≡ step (geometry n b m) (Call.set_length (issuer program) object length) (buffers server.now view.old log.old) }
{
    writebehind::wb_setlen(n, b, m, server, view, log, program, object, length)
}

// A forder on a list of objects, "2 bytes an object".
#[unsafe(no_mangle)]
pub extern "C" fn wb_forder(
    n: u64,
    b: u64,
    m: u64,
    server: &[u8],
    view: &[u8],
    log: &mut [u8],
    program: u64,
    list: &[u8],
) -> Value
    ensures { given result.returned (result.value ∷ []) [] (buffers server.now view.now log.new)
        ≡ step (geometry n b m) (Call.forder (issuer program) list.now) (buffers server.now view.now log.old) }
{
    writebehind::wb_forder(n, b, m, server, view, log, program, list)
}

// "Push sends the waiting operation of a given sequence number and frees its slot."
#[unsafe(no_mangle)]
pub extern "C" fn wb_push(
    n: u64,
    b: u64,
    m: u64,
    server: &mut [u8],
    view: &[u8],
    log: &mut [u8],
    sequence: u64,
) -> Code
    ensures { given result.returned [] [] (buffers server.new view.now log.new)
        ≡ step (geometry n b m) (Call.push sequence) (buffers server.old view.now log.old) }
{
    writebehind::wb_push(n, b, m, server, view, log, sequence)
}

// "Fsync names an object and the sends k that the link still carries."
#[unsafe(no_mangle)]
pub extern "C" fn wb_fsync(
    n: u64,
    b: u64,
    m: u64,
    server: &mut [u8],
    view: &mut [u8],
    log: &mut [u8],
    program: u64,
    object: u64,
    sends: u64,
) -> Value
    ensures { given result.returned (result.value ∷ []) [] (buffers server.new view.new log.new)
        ≡ step (geometry n b m) (Call.fsync program object sends) (buffers server.old view.old log.old) }
{
    writebehind::wb_fsync(n, b, m, server, view, log, program, object, sends)
}

// "Cut turns all waiting ones into lost ones, marks the dependents, and copies the server to the view."
#[unsafe(no_mangle)]
pub extern "C" fn wb_cut(
    n: u64,
    b: u64,
    m: u64,
    server: &[u8],
    view: &mut [u8],
    log: &mut [u8],
) -> Code
    ensures { given result.returned [] [] (buffers server.now view.new log.new)
        ≡ step (geometry n b m) (Call.cut) (buffers server.now view.old log.old) }
{
    writebehind::wb_cut(n, b, m, server, view, log)
}

// "Take writes the earliest loss of a program and frees its slot."
#[unsafe(no_mangle)]
pub extern "C" fn wb_take(
    n: u64,
    b: u64,
    m: u64,
    server: &[u8],
    view: &[u8],
    log: &mut [u8],
    program: u64,
    buffer: &mut [u8],
) -> Value
    ensures { given result.returned (result.value ∷ []) buffer.new (buffers server.now view.now log.new)
        ≡ step (geometry n b m) (Call.take program buffer.old) (buffers server.now view.now log.old) }
{
    writebehind::wb_take(n, b, m, server, view, log, program, buffer)
}

// "Renew clears its mark."
#[unsafe(no_mangle)]
pub extern "C" fn wb_renew(
    n: u64,
    b: u64,
    m: u64,
    server: &[u8],
    view: &[u8],
    log: &mut [u8],
    program: u64,
) -> Code
    ensures { given result.returned [] [] (buffers server.now view.now log.new)
        ≡ step (geometry n b m) (Call.renew program) (buffers server.now view.now log.old) }
{
    writebehind::wb_renew(n, b, m, server, view, log, program)
}

// The record reader, at any place of any buffer.
#[unsafe(no_mangle)]
pub extern "C" fn wb_record(at: u64, buffer: &[u8]) -> Loss
    ensures { result ≡ loss_of at (decode_record (drop at buffer.now)) }
{
    writebehind::wb_record(at, buffer)
}
