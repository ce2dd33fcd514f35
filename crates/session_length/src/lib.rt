// Set length (document 01, "Calls"): "Set length zeroes what it cuts off or adds."
#![tactic(auto)]

ghost use Rattle.std.specs.Prelude.{◌≡◌, [], ◌∷◌};
ghost use Rattle.volume_tree.specs.Stored.{read_volume};
ghost use Rattle.volume_tree.specs.Code.Lent.{Lent};
ghost use Rattle.session.specs.Call.{geometry, buffers, issuer};
ghost use Rattle.session.specs.Call;
ghost use Rattle.session.specs.Step.{given, step};
ghost use Rattle.session.specs.Edit.{length_rows};
ghost use Rattle.session.specs.Code.Table.{first_number};
ghost use Rattle.returned.specs.Refusal.{number_of, value_or0};

use buffer::BLOCK;
use log_draft::Issuer;
use log_issue::issue_length;
use returned::Refusal;
use session_admission::lent::admit;
use session_admission::object::file_refusal;
use session_change::accept_change;

// What the object and the length are refused for. "length over b × 1,024".
pub fn length_refusal(
    view: &[u8],
    n: usize,
    b: usize,
    object: usize,
    length: usize,
) -> Result<(), Refusal>
    requires { Lent n b view.now }
    ensures { number_of result ≡ first_number (length_rows b (read_volume n b view.now) object length) }
{
    if let Err(refusal) = file_refusal(view, n, b, object) {
        return Err(refusal);
    }
    if BLOCK * b < length {
        return Err(Refusal::BadRange);
    }
    Ok(())
}

pub fn set_length(
    n: usize,
    b: usize,
    m: usize,
    server: &[u8],
    view: &mut [u8],
    log: &mut [u8],
    program: usize,
    object: usize,
    length: usize,
) -> Result<usize, Refusal>
    ensures { given (number_of result) (value_or0 result ∷ []) [] (buffers server.now view.new log.new)
        ≡ step (geometry n b m) (Call.set_length (issuer program) object length) (buffers server.now view.old log.old) }
{
    if let Err(refusal) = admit(n, b, m, server, view, log) {
        return Err(refusal);
    }
    let own = length_refusal(view, n, b, object, length);
    if let Err(refusal) = accept_change(log, n, b, m, program, own, 1) {
        return Err(refusal);
    }
    let by = Issuer { program };
    let number = issue_length(log, view, n, b, m, by, object, length);
    Ok(number)
}
