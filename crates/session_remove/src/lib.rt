// Remove file and remove directory (document 01, "Calls"): "Remove file takes only files, remove directory only empty directories."
// (document 02, K4)
#![tactic(auto)]

ghost use Rattle.std.specs.Prelude.{◌<◌, ◌≡◌, [], ◌∷◌};
ghost use Rattle.volume_tree.specs.Volume.{entry_at};
ghost use Rattle.volume_tree.specs.Stored.{read_volume};
ghost use Rattle.volume_tree.specs.Code.Lent.{Lent};
ghost use Rattle.session.specs.Call.{geometry, buffers, issuer};
ghost use Rattle.session.specs.Call;
ghost use Rattle.session.specs.Edit.{remove_rows};
ghost use Rattle.session.specs.Step.{given, step};
ghost use Rattle.session.specs.Code.Table.{first_number};
ghost use Rattle.session_names.specs.Code.Rows.{Finds};
ghost use Rattle.session_remove.specs.Code.Remove.{remove_call, removed_kind, choice_rows};
ghost use Rattle.returned.specs.Refusal.{number_of, value_or0};

use log_draft::Issuer;
use log_issue::issue_entry;
use record::kind::Kind;
use returned::Refusal;
use session_admission::lent::admit;
use session_change::accept_change;
use session_names::place::seek;
use session_names::text::text_refusal;
use volume_entry::field::{is_directory, is_file};
use volume_tree::entries::entry;
use volume_tree::search::has_children;

// Whether an object is of the kind that is to be removed: a directory or a file.
fn is_removed_kind(view: &[u8], n: usize, b: usize, object: usize, directory: bool) -> bool
    requires lent { Lent n b view.now }
    requires object_lt_n { object < n }
    ensures { result ≡ removed_kind directory (entry_at (read_volume n b view.now) object) }
{
    if directory {
        return is_directory(entry(view, n, b, object));
    }
    is_file(entry(view, n, b, object))
}

// The refusal of an object that was found, for its kind and its children.
fn choice_refusal(
    view: &[u8],
    n: usize,
    b: usize,
    object: usize,
    directory: bool,
) -> Result<(), Refusal>
    requires lent { Lent n b view.now }
    requires object_lt_n { object < n }
    ensures { number_of result ≡ first_number (choice_rows (removed_kind directory) (read_volume n b view.now) object) }
{
    if is_removed_kind(view, n, b, object, directory) {
        if has_children(view, n, b, object) {
            return Err(Refusal::NotEmpty);
        }
        return Ok(());
    }
    Err(Refusal::WrongKind)
}

// The object that a name leads to, if it may be removed.
fn removed_object(
    view: &[u8],
    n: usize,
    b: usize,
    parent: usize,
    name: &[u8],
    directory: bool,
) -> Result<usize, Refusal>
    requires { Lent n b view.now }
    ensures { Finds (read_volume n b view.now) parent name.now (remove_rows (removed_kind directory) (read_volume n b view.now) parent name.now) result }
{
    if let Err(refusal) = text_refusal(name) {
        return Err(refusal);
    }
    let object = match seek(view, n, b, parent, name) {
        Ok(object) => object,
        Err(refusal) => return Err(refusal),
    };
    if let Err(refusal) = choice_refusal(view, n, b, object, directory) {
        return Err(refusal);
    }
    Ok(object)
}

// Both calls: whether it is a directory that is removed is all they differ in.
fn remove(
    n: usize,
    b: usize,
    m: usize,
    server: &[u8],
    view: &mut [u8],
    log: &mut [u8],
    directory: bool,
    program: usize,
    parent: usize,
    name: &[u8],
) -> Result<usize, Refusal>
    ensures { given (number_of result) (value_or0 result ∷ []) [] (buffers server.now view.new log.new)
        ≡ step (geometry n b m) (remove_call directory (issuer program) parent name.now) (buffers server.now view.old log.old) }
{
    if let Err(refusal) = admit(n, b, m, server, view, log) {
        return Err(refusal);
    }
    let own = removed_object(view, n, b, parent, name, directory);
    let object = match accept_change(log, n, b, m, program, own, 1) {
        Ok(object) => object,
        Err(refusal) => return Err(refusal),
    };
    let by = Issuer { program };
    let next = issue_entry(log, view, n, b, m, Kind::Remove, by, object, parent, name);
    Ok(next)
}

// Removes a file.
pub fn remove_file(
    n: usize,
    b: usize,
    m: usize,
    server: &[u8],
    view: &mut [u8],
    log: &mut [u8],
    program: usize,
    parent: usize,
    name: &[u8],
) -> Result<usize, Refusal>
    ensures { given (number_of result) (value_or0 result ∷ []) [] (buffers server.now view.new log.new)
        ≡ step (geometry n b m) (Call.remove_file (issuer program) parent name.now) (buffers server.now view.old log.old) }
{
    remove(n, b, m, server, view, log, false, program, parent, name)
}

// Removes a directory without children.
pub fn remove_directory(
    n: usize,
    b: usize,
    m: usize,
    server: &[u8],
    view: &mut [u8],
    log: &mut [u8],
    program: usize,
    parent: usize,
    name: &[u8],
) -> Result<usize, Refusal>
    ensures { given (number_of result) (value_or0 result ∷ []) [] (buffers server.now view.new log.new)
        ≡ step (geometry n b m) (Call.remove_directory (issuer program) parent name.now) (buffers server.now view.old log.old) }
{
    remove(n, b, m, server, view, log, true, program, parent, name)
}
