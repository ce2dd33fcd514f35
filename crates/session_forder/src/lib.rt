// Forder (document 01, "Calls"), which is issued like a change: "Forder's list is lent as 2 bytes an object".
#![tactic(auto)]

ghost use Rattle.std.specs.Prelude.{◌≡◌, [], ◌∷◌};
ghost use Rattle.record.specs.Fields.{objects_of};
ghost use Rattle.volume_tree.specs.Stored.{read_volume};
ghost use Rattle.volume_tree.specs.Code.Lent.{Lent};
ghost use Rattle.log_rules.specs.Order.{any};
ghost use Rattle.session.specs.Model.{is_free};
ghost use Rattle.session.specs.Call.{geometry, buffers, issuer};
ghost use Rattle.session.specs.Call;
ghost use Rattle.session.specs.Step.{given, step};
ghost use Rattle.session.specs.Edit.{forder_rows};
ghost use Rattle.session.specs.Code.Table.{first_number};
ghost use Rattle.returned.specs.Refusal.{number_of, value_or0};

use log_draft::Issuer;
use log_issue::issue_forder;
use record_valid::list::{good_list, list_below, object_of};
use returned::Refusal;
use session_admission::lent::admit;
use session_change::accept_change;
use volume_entry::field::is_used;
use volume_tree::entries::entry;

// "entry free"; an object n or more has none.
fn is_free(view: &[u8], n: usize, b: usize, object: usize) -> bool
    requires { Lent n b view.now }
    ensures { result ≡ is_free (read_volume n b view.now) object }
{
    n <= object || !is_used(entry(view, n, b, object))
}

// Whether the entry of some object of a list is free.
fn any_free(view: &[u8], n: usize, b: usize, list: &[u8]) -> bool
    requires { Lent n b view.now }
    ensures { result ≡ any (is_free (read_volume n b view.now)) (objects_of list.now) }
{
    for i in 0..list.len() / 2 {
        if is_free(view, n, b, object_of(list, i)) {
            return true;
        }
    }
    false
}

// What the list is refused for: "a length of 0, odd or over 16, or an object named twice, is a bad list".
pub fn forder_refusal(view: &[u8], n: usize, b: usize, list: &[u8]) -> Result<(), Refusal>
    requires { Lent n b view.now }
    ensures { number_of result ≡ first_number (forder_rows (read_volume n b view.now) list.now) }
{
    if list.len() % 2 != 0 || !good_list(list) || !list_below(list, n) {
        return Err(Refusal::BadNumber);
    }
    if any_free(view, n, b, list) {
        return Err(Refusal::NoObject);
    }
    Ok(())
}

// The view is only read: "forder's change to the view is none".
pub fn forder(
    n: usize,
    b: usize,
    m: usize,
    server: &[u8],
    view: &[u8],
    log: &mut [u8],
    program: usize,
    list: &[u8],
) -> Result<usize, Refusal>
    ensures { given (number_of result) (value_or0 result ∷ []) [] (buffers server.now view.now log.new)
        ≡ step (geometry n b m) (Call.forder (issuer program) list.now) (buffers server.now view.now log.old) }
{
    if let Err(refusal) = admit(n, b, m, server, view, log) {
        return Err(refusal);
    }
    let own = forder_refusal(view, n, b, list);
    if let Err(refusal) = accept_change(log, n, b, m, program, own, 1) {
        return Err(refusal);
    }
    let by = Issuer { program };
    let number = issue_forder(log, n, b, m, by, list);
    Ok(number)
}
