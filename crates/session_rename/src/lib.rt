// Rename (document 01, "Calls"): "Rename replaces a file by a file or an empty directory by a directory. A directory stays
// in its parent."
#![tactic(auto)]

ghost use Rattle.std.specs.Prelude.{ℕ, ◌≡◌, ◌<◌, [], ◌∷◌, not, ◌&&◌, eqb, Some};
ghost use Rattle.volume_entry.specs.Entry.{is_directory};
ghost use Rattle.volume_tree.specs.Volume.{entry_at, search};
ghost use Rattle.volume_tree.specs.Stored.{read_volume};
ghost use Rattle.volume_tree.specs.Code.Lent.{Lent};
ghost use Rattle.session.specs.Call.{geometry, buffers, issuer};
ghost use Rattle.session.specs.Call;
ghost use Rattle.session.specs.Issue.{displaced};
ghost use Rattle.session.specs.Step.{given, step};
ghost use Rattle.session.specs.Code.Table.{first_number};
ghost use Rattle.session_rename.specs.Code.Rename.{move_rows, Moves};
ghost use Rattle.returned.specs.Refusal.{number_of, value_or0};

use log_draft::Issuer;
use log_issue::issue_rename;
use returned::Refusal;
use session_admission::lent::admit;
use session_admission::object::directory_refusal;
use session_change::accept_change;
use session_names::place::seek;
use session_names::text::{lower_of, text_refusal};
use volume_entry::field::{is_directory, kind};
use volume_tree::entries::entry;
use volume_tree::search::{has_children, search};

// The object that is renamed, and the one that it displaces, if any.
#[derive(Clone, Copy)]
pub struct Move {
    pub object: usize,
    pub displaced: Option<usize>,
}

// The object that a second name leads to, unless that is the object itself.
fn displaced_by(
    view: &[u8],
    n: usize,
    b: usize,
    object: usize,
    parent: usize,
    name: &[u8],
) -> Option<usize>
    requires { Lent n b view.now }
    ensures { (result ≡ displaced object (search (read_volume n b view.now) parent name.now)) × ((i : ℕ) → result ≡ Some i → i < n) }
{
    match search(view, n, b, parent, name) {
        Some(i) => {
            if i == object {
                return None;
            }
            Some(i)
        }
        None => None,
    }
}

// Whether an object is a directory that would leave its parent.
fn leaves_parent(
    view: &[u8],
    n: usize,
    b: usize,
    object: usize,
    parent: usize,
    second: usize,
) -> bool
    requires lent { Lent n b view.now }
    requires object_lt_n { object < n }
    ensures { result ≡ is_directory (entry_at (read_volume n b view.now) object) && not (eqb parent second) }
{
    if is_directory(entry(view, n, b, object)) {
        return parent != second;
    }
    false
}

// The refusal of an object that was found, for its kind and for what it displaces.
fn move_refusal(
    view: &[u8],
    n: usize,
    b: usize,
    parent: usize,
    second: usize,
    object: usize,
    displaced: Option<usize>,
) -> Result<(), Refusal>
    requires lent { Lent n b view.now }
    requires object_lt_n { (object < n) × ((i : ℕ) → displaced ≡ Some i → i < n) }
    ensures { number_of result ≡ first_number (move_rows (read_volume n b view.now) parent second object displaced) }
{
    if leaves_parent(view, n, b, object, parent, second) {
        return Err(Refusal::WrongKind);
    }
    let Some(gone) = displaced else {
        return Ok(());
    };
    if kind(entry(view, n, b, gone)) != kind(entry(view, n, b, object)) {
        return Err(Refusal::WrongKind);
    }
    if has_children(view, n, b, gone) {
        return Err(Refusal::NotEmpty);
    }
    Ok(())
}

// What a rename renames and displaces. What can be judged is judged over both sides.
fn renamed(
    view: &[u8],
    n: usize,
    b: usize,
    parent: usize,
    name: &[u8],
    second: usize,
    second_name: &[u8],
) -> Result<Move, Refusal>
    requires { Lent n b view.now }
    ensures { Moves (read_volume n b view.now) parent name.now second second_name.now result }
{
    if let Err(refusal) = lower_of(text_refusal(name), text_refusal(second_name)) {
        return Err(refusal);
    }
    let sought = seek(view, n, b, parent, name);
    let object = match lower_of(sought, directory_refusal(view, n, b, second)) {
        Ok(object) => object,
        Err(refusal) => return Err(refusal),
    };
    let displaced = displaced_by(view, n, b, object, second, second_name);
    if let Err(refusal) = move_refusal(view, n, b, parent, second, object, displaced) {
        return Err(refusal);
    }
    Ok(Move { object, displaced })
}

pub fn rename(
    n: usize,
    b: usize,
    m: usize,
    server: &[u8],
    view: &mut [u8],
    log: &mut [u8],
    program: usize,
    parent: usize,
    name: &[u8],
    second_parent: usize,
    second_name: &[u8],
) -> Result<usize, Refusal>
    ensures { given (number_of result) (value_or0 result ∷ []) [] (buffers server.now view.new log.new)
        ≡ step (geometry n b m) (Call.rename (issuer program) parent name.now second_parent second_name.now) (buffers server.now view.old log.old) }
{
    if let Err(refusal) = admit(n, b, m, server, view, log) {
        return Err(refusal);
    }
    let own = renamed(view, n, b, parent, name, second_parent, second_name);
    let found = match accept_change(log, n, b, m, program, own, 1) {
        Ok(found) => found,
        Err(refusal) => return Err(refusal),
    };
    let object = found.object;
    let displaced = found.displaced;
    let by = Issuer { program };
    let next = issue_rename(
        log,
        view,
        n,
        b,
        m,
        by,
        object,
        parent,
        second_parent,
        displaced,
        name,
        second_name,
    );
    Ok(next)
}
