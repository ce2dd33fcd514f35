// The entries, which crate writebehind_c exports to a host in C: each hands its numbers and buffers to one proved function, and its
// contract says by `step` what every result and every byte is, for any numbers and buffers.
#![tactic(auto)]

ghost use Rattle.std.specs.Prelude.{◌≡◌, [], ◌∷◌, drop};
ghost use Rattle.record.specs.Decode.{decode_record};
ghost use Rattle.session.specs.Call.{geometry, buffers, issuer};
ghost use Rattle.session.specs.Call;
ghost use Rattle.session.specs.Step.{given, step, format, format_leaves, mount};
ghost use Rattle.writebehind.specs.Loss.{loss_of};

pub mod loss;

use crate::loss::{Loss, loss_at};
use returned::{Code, Status, Value};

// "Format makes a server volume with only a root."
pub fn wb_format(n: u64, b: u64, m: u64, server: &mut [u8]) -> Code
    ensures returned { result.returned ≡ format (geometry n b m) server.old }
    ensures volume { server.new ≡ format_leaves (geometry n b m) server.old }
{
    Code::from(session_mount::format(n as usize, b as usize, m as usize, server))
}

// "Mount checks the server volume, copies it to the view and begins an empty log".
pub fn wb_mount(n: u64, b: u64, m: u64, server: &[u8], view: &mut [u8], log: &mut [u8]) -> Code
    ensures { given result.returned [] [] (buffers server.now view.new log.new)
        ≡ mount (geometry n b m) (buffers server.now view.old log.old) }
{
    Code::from(session_mount::mount(n as usize, b as usize, m as usize, server, view, log))
}

// "Lookup alone takes a path and gives an object number."
pub fn wb_lookup(
    n: u64,
    b: u64,
    m: u64,
    server: &[u8],
    view: &[u8],
    log: &mut [u8],
    program: u64,
    path: &[u8],
) -> Value
    ensures { given result.returned (result.value ∷ []) [] (buffers server.now view.now log.new)
        ≡ step (geometry n b m) (Call.lookup program path.now) (buffers server.now view.now log.old) }
{
    Value::from(session_lookup::lookup(
        n as usize,
        b as usize,
        m as usize,
        server,
        view,
        log,
        program as usize,
        path,
    ))
}

// The children of a directory, into a buffer.
pub fn wb_list(
    n: u64,
    b: u64,
    m: u64,
    server: &[u8],
    view: &[u8],
    log: &mut [u8],
    program: u64,
    object: u64,
    buffer: &mut [u8],
) -> Value
    ensures { given result.returned (result.value ∷ []) buffer.new (buffers server.now view.now log.new)
        ≡ step (geometry n b m) (Call.list program object buffer.old) (buffers server.now view.now log.old) }
{
    Value::from(session_list::list(
        n as usize,
        b as usize,
        m as usize,
        server,
        view,
        log,
        program as usize,
        object as usize,
        buffer,
    ))
}

// Kind, length and usage of an object.
pub fn wb_stat(
    n: u64,
    b: u64,
    m: u64,
    server: &[u8],
    view: &[u8],
    log: &mut [u8],
    program: u64,
    object: u64,
) -> Status
    ensures { given result.returned (result.kind ∷ result.length ∷ result.usage ∷ []) [] (buffers server.now view.now log.new)
        ≡ step (geometry n b m) (Call.stat program object) (buffers server.now view.now log.old) }
{
    session_stat::status_of(session_stat::stat(
        n as usize,
        b as usize,
        m as usize,
        server,
        view,
        log,
        program as usize,
        object as usize,
    ))
}

// Bytes of a file, into a buffer.
pub fn wb_read(
    n: u64,
    b: u64,
    m: u64,
    server: &[u8],
    view: &[u8],
    log: &mut [u8],
    program: u64,
    object: u64,
    offset: u64,
    buffer: &mut [u8],
) -> Value
    ensures { given result.returned (result.value ∷ []) buffer.new (buffers server.now view.now log.new)
        ≡ step (geometry n b m) (Call.read program object offset buffer.old) (buffers server.now view.now log.old) }
{
    Value::from(session_read::read(
        n as usize,
        b as usize,
        m as usize,
        server,
        view,
        log,
        program as usize,
        object as usize,
        offset as usize,
        buffer,
    ))
}

// An empty file.
pub fn wb_create(
    n: u64,
    b: u64,
    m: u64,
    server: &[u8],
    view: &mut [u8],
    log: &mut [u8],
    program: u64,
    parent: u64,
    name: &[u8],
    object: u64,
) -> Value
    ensures { given result.returned (result.value ∷ []) [] (buffers server.now view.new log.new)
        ≡ step (geometry n b m) (Call.create_file (issuer program) parent name.now object) (buffers server.now view.old log.old) }
{
    Value::from(session_make::create(
        n as usize,
        b as usize,
        m as usize,
        server,
        view,
        log,
        program as usize,
        parent as usize,
        name,
        object as usize,
    ))
}

// An empty directory.
pub fn wb_mkdir(
    n: u64,
    b: u64,
    m: u64,
    server: &[u8],
    view: &mut [u8],
    log: &mut [u8],
    program: u64,
    parent: u64,
    name: &[u8],
    object: u64,
) -> Value
    ensures { given result.returned (result.value ∷ []) [] (buffers server.now view.new log.new)
        ≡ step (geometry n b m) (Call.make_directory (issuer program) parent name.now object) (buffers server.now view.old log.old) }
{
    Value::from(session_make::make_directory(
        n as usize,
        b as usize,
        m as usize,
        server,
        view,
        log,
        program as usize,
        parent as usize,
        name,
        object as usize,
    ))
}

// "Remove file takes only files" (document 02, K4).
pub fn wb_remove_file(
    n: u64,
    b: u64,
    m: u64,
    server: &[u8],
    view: &mut [u8],
    log: &mut [u8],
    program: u64,
    parent: u64,
    name: &[u8],
) -> Value
    ensures { given result.returned (result.value ∷ []) [] (buffers server.now view.new log.new)
        ≡ step (geometry n b m) (Call.remove_file (issuer program) parent name.now) (buffers server.now view.old log.old) }
{
    Value::from(session_remove::remove_file(
        n as usize,
        b as usize,
        m as usize,
        server,
        view,
        log,
        program as usize,
        parent as usize,
        name,
    ))
}

// "remove directory only empty directories" (document 02, K4).
pub fn wb_remove_directory(
    n: u64,
    b: u64,
    m: u64,
    server: &[u8],
    view: &mut [u8],
    log: &mut [u8],
    program: u64,
    parent: u64,
    name: &[u8],
) -> Value
    ensures { given result.returned (result.value ∷ []) [] (buffers server.now view.new log.new)
        ≡ step (geometry n b m) (Call.remove_directory (issuer program) parent name.now) (buffers server.now view.old log.old) }
{
    Value::from(session_remove::remove_directory(
        n as usize,
        b as usize,
        m as usize,
        server,
        view,
        log,
        program as usize,
        parent as usize,
        name,
    ))
}

// "Rename replaces a file by a file or an empty directory by a directory."
pub fn wb_rename(
    n: u64,
    b: u64,
    m: u64,
    server: &[u8],
    view: &mut [u8],
    log: &mut [u8],
    program: u64,
    parent: u64,
    name: &[u8],
    second_parent: u64,
    second_name: &[u8],
) -> Value
    ensures { given result.returned (result.value ∷ []) [] (buffers server.now view.new log.new)
        ≡ step (geometry n b m) (Call.rename (issuer program) parent name.now second_parent second_name.now) (buffers server.now view.old log.old) }
{
    Value::from(session_rename::rename(
        n as usize,
        b as usize,
        m as usize,
        server,
        view,
        log,
        program as usize,
        parent as usize,
        name,
        second_parent as usize,
        second_name,
    ))
}

// An overwrite or an append, in one block.
pub fn wb_write(
    n: u64,
    b: u64,
    m: u64,
    server: &[u8],
    view: &mut [u8],
    log: &mut [u8],
    program: u64,
    object: u64,
    offset: u64,
    data: &[u8],
) -> Value
    ensures { given result.returned (result.value ∷ []) [] (buffers server.now view.new log.new)
        ≡ step (geometry n b m) (Call.write (issuer program) object offset «data».now) (buffers server.now view.old log.old) }
{
    Value::from(session_write::write::write(
        n as usize,
        b as usize,
        m as usize,
        server,
        view,
        log,
        program as usize,
        object as usize,
        offset as usize,
        data,
    ))
}

// "Set length zeroes what it cuts off or adds."
pub fn wb_setlen(
    n: u64,
    b: u64,
    m: u64,
    server: &[u8],
    view: &mut [u8],
    log: &mut [u8],
    program: u64,
    object: u64,
    length: u64,
) -> Value
    ensures { given result.returned (result.value ∷ []) [] (buffers server.now view.new log.new)
        ≡ step (geometry n b m) (Call.set_length (issuer program) object length) (buffers server.now view.old log.old) }
{
    Value::from(session_length::set_length(
        n as usize,
        b as usize,
        m as usize,
        server,
        view,
        log,
        program as usize,
        object as usize,
        length as usize,
    ))
}

// A forder on a list of objects, "2 bytes an object".
pub fn wb_forder(
    n: u64,
    b: u64,
    m: u64,
    server: &[u8],
    view: &[u8],
    log: &mut [u8],
    program: u64,
    list: &[u8],
) -> Value
    ensures { given result.returned (result.value ∷ []) [] (buffers server.now view.now log.new)
        ≡ step (geometry n b m) (Call.forder (issuer program) list.now) (buffers server.now view.now log.old) }
{
    Value::from(session_forder::forder(
        n as usize,
        b as usize,
        m as usize,
        server,
        view,
        log,
        program as usize,
        list,
    ))
}

// "Push sends the waiting operation of a given sequence number and frees its slot."
pub fn wb_push(
    n: u64,
    b: u64,
    m: u64,
    server: &mut [u8],
    view: &[u8],
    log: &mut [u8],
    sequence: u64,
) -> Code
    ensures { given result.returned [] [] (buffers server.new view.now log.new)
        ≡ step (geometry n b m) (Call.push sequence) (buffers server.old view.now log.old) }
{
    Code::from(session_push::push(
        n as usize,
        b as usize,
        m as usize,
        server,
        view,
        log,
        sequence as usize,
    ))
}

// "Fsync names an object and the sends k that the link still carries."
pub fn wb_fsync(
    n: u64,
    b: u64,
    m: u64,
    server: &mut [u8],
    view: &mut [u8],
    log: &mut [u8],
    program: u64,
    object: u64,
    sends: u64,
) -> Value
    ensures { given result.returned (result.value ∷ []) [] (buffers server.new view.new log.new)
        ≡ step (geometry n b m) (Call.fsync program object sends) (buffers server.old view.old log.old) }
{
    session_fsync::fsync(
        n as usize,
        b as usize,
        m as usize,
        server,
        view,
        log,
        program as usize,
        object as usize,
        sends as usize,
    )
}

// "Cut turns all waiting ones into lost ones, marks the dependents, and copies the server to the view."
pub fn wb_cut(n: u64, b: u64, m: u64, server: &[u8], view: &mut [u8], log: &mut [u8]) -> Code
    ensures { given result.returned [] [] (buffers server.now view.new log.new)
        ≡ step (geometry n b m) (Call.cut) (buffers server.now view.old log.old) }
{
    Code::from(session_cut::cut(n as usize, b as usize, m as usize, server, view, log))
}

// "Take writes the earliest loss of a program and frees its slot."
pub fn wb_take(
    n: u64,
    b: u64,
    m: u64,
    server: &[u8],
    view: &[u8],
    log: &mut [u8],
    program: u64,
    buffer: &mut [u8],
) -> Value
    ensures { given result.returned (result.value ∷ []) buffer.new (buffers server.now view.now log.new)
        ≡ step (geometry n b m) (Call.take program buffer.old) (buffers server.now view.now log.old) }
{
    Value::from(session_take::take(
        n as usize,
        b as usize,
        m as usize,
        server,
        view,
        log,
        program as usize,
        buffer,
    ))
}

// "Renew clears its mark."
pub fn wb_renew(
    n: u64,
    b: u64,
    m: u64,
    server: &[u8],
    view: &[u8],
    log: &mut [u8],
    program: u64,
) -> Code
    ensures { given result.returned [] [] (buffers server.now view.now log.new)
        ≡ step (geometry n b m) (Call.renew program) (buffers server.now view.now log.old) }
{
    Code::from(session_renew::renew(
        n as usize,
        b as usize,
        m as usize,
        server,
        view,
        log,
        program as usize,
    ))
}

// The record reader, at any place of any buffer.
pub fn wb_record(at: u64, buffer: &[u8]) -> Loss
    ensures { result ≡ loss_of at (decode_record (drop at buffer.now)) }
{
    loss_at(at as usize, buffer)
}
