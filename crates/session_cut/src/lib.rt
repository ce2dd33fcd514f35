// "Cut turns all waiting ones into lost ones, marks the dependents, and copies the server to the view" (document 01, "Calls").
#![tactic(auto)]

ghost use Rattle.std.specs.Prelude.{◌≡◌, []};
ghost use Rattle.session.specs.Call.{geometry, buffers};
ghost use Rattle.session.specs.Call;
ghost use Rattle.session.specs.Step.{given, step};
ghost use Rattle.returned.specs.Refusal.{number_of};

use log_discard::discard;
use returned::Refusal;
use session_admission::lent::admit;
use volume_write::format::copy_volume;

pub fn cut(
    n: usize,
    b: usize,
    m: usize,
    server: &[u8],
    view: &mut [u8],
    log: &mut [u8],
) -> Result<(), Refusal>
    ensures { given (number_of result) [] [] (buffers server.now view.new log.new)
        ≡ step (geometry n b m) Call.cut (buffers server.now view.old log.old) }
{
    if let Err(refusal) = admit(n, b, m, server, view, log) {
        return Err(refusal);
    }
    discard(log, m);
    copy_volume(view, server);
    Ok(())
}
