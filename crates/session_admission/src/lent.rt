// "1 Wrong buffer", then "2 Damaged: stored form broken": the one test of lengths and form that all calls share.
ghost use Rattle.std.specs.Prelude.{◌≡◌, ◌&&◌};
ghost use Rattle.volume_tree.specs.Stored.{formed};
ghost use Rattle.log_rules.specs.Stored.{formed_log};
ghost use Rattle.session.specs.Call.{geometry, buffers, in_range, lengths_fit};
ghost use Rattle.session.specs.Model.{agreeing};
ghost use Rattle.session_admission.specs.Code.Admitted.{admission, model_in};
ghost use Rattle.returned.specs.Refusal.{number_of};

use log_form::log_formed;
use returned::Refusal;
use volume_form::well_formed;
use volume_tree::entries::is_lent;

// Whether n, b, m and the three lengths are as document 01 has them.
pub fn lengths_fit(n: usize, b: usize, m: usize, server: &[u8], view: &[u8], log: &[u8]) -> bool
    ensures { result
        ≡ in_range (geometry n b m) && lengths_fit (geometry n b m) (buffers server.now view.now log.now) }
{
    if is_lent(server, n, b) {
        if is_lent(view, n, b) {
            return log_form::is_lent(log, n, b, m);
        }
    }
    false
}

// Whether what three buffers of the right form store agrees: nothing ties them to each other.
fn agree(n: usize, b: usize, m: usize, server: &[u8], view: &[u8], log: &[u8]) -> bool
    ensures { result ≡ agreeing (model_in n b m server.now view.now log.now) }
{
    true
}

// Whether each of the three buffers is of the right form, and they agree.
fn all_formed(n: usize, b: usize, m: usize, server: &[u8], view: &[u8], log: &[u8]) -> bool
    ensures { result ≡ formed n b server.now && (formed n b view.now && (formed_log n b m log.now
        && agreeing (model_in n b m server.now view.now log.now))) }
{
    if well_formed(server, n, b) {
        if well_formed(view, n, b) {
            if log_formed(log, n, b, m) {
                return agree(n, b, m, server, view, log);
            }
        }
    }
    false
}

// The number by which a call is refused for what it is lent.
pub fn admit(
    n: usize,
    b: usize,
    m: usize,
    server: &[u8],
    view: &[u8],
    log: &[u8],
) -> Result<(), Refusal>
    ensures { number_of result ≡ admission (geometry n b m) (buffers server.now view.now log.now) }
{
    if lengths_fit(n, b, m, server, view, log) {
        if all_formed(n, b, m, server, view, log) {
            return Ok(());
        }
        return Err(Refusal::Damaged);
    }
    Err(Refusal::WrongBuffer)
}
