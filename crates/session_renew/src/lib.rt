// "Renew clears its mark", once the program took all losses of its own operations (document 01, "Calls").
#![tactic(auto)]

ghost use Rattle.std.specs.Prelude.{◌≡◌, []};
ghost use Rattle.session.specs.Call.{geometry, buffers};
ghost use Rattle.session.specs.Call;
ghost use Rattle.session.specs.Step.{given, step};
ghost use Rattle.returned.specs.Refusal.{number_of};

use returned::Refusal;
use session_admission::lent::admit;
use session_admission::program::number_refusal;
use session_losses::loss_in;

pub fn renew(
    n: usize,
    b: usize,
    m: usize,
    server: &[u8],
    view: &[u8],
    log: &mut [u8],
    program: usize,
) -> Result<(), Refusal>
    ensures { given (number_of result) [] [] (buffers server.now view.now log.new)
        ≡ step (geometry n b m) (Call.renew program) (buffers server.now view.now log.old) }
{
    if let Err(refusal) = admit(n, b, m, server, view, log) {
        return Err(refusal);
    }
    if let Err(refusal) = number_refusal(program) {
        return Err(refusal);
    }
    match loss_in(log, m, program) {
        Some(_) => Err(Refusal::LossesLeft),
        None => {
            log_take::renew(log, m, program);
            Ok(())
        }
    }
}
