// Create and make directory (document 01, "Calls"): "Create and make directory take an unused object number from the caller."
#![tactic(auto)]

ghost use Rattle.std.specs.Prelude.{◌≡◌, [], ◌∷◌};
ghost use Rattle.volume_tree.specs.Stored.{read_volume};
ghost use Rattle.volume_tree.specs.Code.Lent.{Lent};
ghost use Rattle.session.specs.Call.{geometry, buffers, issuer};
ghost use Rattle.session.specs.Call;
ghost use Rattle.session.specs.Edit.{make_rows};
ghost use Rattle.session.specs.Step.{given, step};
ghost use Rattle.session.specs.Code.Table.{first_number};
ghost use Rattle.session_make.specs.Code.Make.{make_call, make_kind};
ghost use Rattle.returned.specs.Refusal.{number_of, value_or0};

use log_draft::Issuer;
use log_issue::issue_entry;
use record::kind::Kind;
use returned::Refusal;
use session_admission::lent::admit;
use session_admission::object::directory_refusal;
use session_change::accept_change;
use session_names::text::text_refusal;
use volume_entry::field::is_used;
use volume_tree::entries::entry;
use volume_tree::search::search;

// The refusal of a name and an object number for a new entry.
fn make_refusal(
    view: &[u8],
    n: usize,
    b: usize,
    parent: usize,
    name: &[u8],
    object: usize,
) -> Result<(), Refusal>
    requires { Lent n b view.now }
    ensures { number_of result ≡ first_number (make_rows (read_volume n b view.now) parent name.now object) }
{
    if let Err(refusal) = text_refusal(name) {
        return Err(refusal);
    }
    if n <= object {
        return Err(Refusal::BadNumber);
    }
    if object == 0 {
        return Err(Refusal::BadNumber);
    }
    if let Err(refusal) = directory_refusal(view, n, b, parent) {
        return Err(refusal);
    }
    if is_used(entry(view, n, b, object)) {
        return Err(Refusal::Taken);
    }
    match search(view, n, b, parent, name) {
        Some(_) => Err(Refusal::Taken),
        None => Ok(()),
    }
}

// The kind of the operation that makes a directory or a file.
fn kind_of(directory: bool) -> Kind
    ensures { result ≡ make_kind directory }
{
    if directory {
        return Kind::MakeDirectory;
    }
    Kind::CreateFile
}

// Both calls: whether it is a directory that is made is all they differ in.
fn make(
    n: usize,
    b: usize,
    m: usize,
    server: &[u8],
    view: &mut [u8],
    log: &mut [u8],
    directory: bool,
    program: usize,
    parent: usize,
    name: &[u8],
    object: usize,
) -> Result<usize, Refusal>
    ensures { given (number_of result) (value_or0 result ∷ []) [] (buffers server.now view.new log.new)
        ≡ step (geometry n b m) (make_call directory (issuer program) parent name.now object) (buffers server.now view.old log.old) }
{
    if let Err(refusal) = admit(n, b, m, server, view, log) {
        return Err(refusal);
    }
    let own = make_refusal(view, n, b, parent, name, object);
    if let Err(refusal) = accept_change(log, n, b, m, program, own, 1) {
        return Err(refusal);
    }
    let kind = kind_of(directory);
    let by = Issuer { program };
    let next = issue_entry(log, view, n, b, m, kind, by, object, parent, name);
    Ok(next)
}

// Creates a file.
pub fn create(
    n: usize,
    b: usize,
    m: usize,
    server: &[u8],
    view: &mut [u8],
    log: &mut [u8],
    program: usize,
    parent: usize,
    name: &[u8],
    object: usize,
) -> Result<usize, Refusal>
    ensures { given (number_of result) (value_or0 result ∷ []) [] (buffers server.now view.new log.new)
        ≡ step (geometry n b m) (Call.create_file (issuer program) parent name.now object) (buffers server.now view.old log.old) }
{
    make(
        n, b, m, server, view, log, false, program, parent, name, object,
    )
}

// Makes a directory.
pub fn make_directory(
    n: usize,
    b: usize,
    m: usize,
    server: &[u8],
    view: &mut [u8],
    log: &mut [u8],
    program: usize,
    parent: usize,
    name: &[u8],
    object: usize,
) -> Result<usize, Refusal>
    ensures { given (number_of result) (value_or0 result ∷ []) [] (buffers server.now view.new log.new)
        ≡ step (geometry n b m) (Call.make_directory (issuer program) parent name.now object) (buffers server.now view.old log.old) }
{
    make(
        n, b, m, server, view, log, true, program, parent, name, object,
    )
}
