// "Take writes the earliest loss of a program and frees its slot" (document 01, "Calls").
#![tactic(auto)]

ghost use Rattle.std.specs.Prelude.{◌≡◌, [], ◌∷◌};
ghost use Rattle.session.specs.Call.{geometry, buffers};
ghost use Rattle.session.specs.Call;
ghost use Rattle.session.specs.Step.{given, step};
ghost use Rattle.returned.specs.Refusal.{number_of, value_or0};

use returned::Refusal;
use session_admission::lent::admit;
use session_admission::program::number_refusal;
use session_losses::loss_in;

// "take below 1,040 bytes": room for the longest loss record.
pub const LONGEST: usize = 1040;

pub fn take(
    n: usize,
    b: usize,
    m: usize,
    server: &[u8],
    view: &[u8],
    log: &mut [u8],
    program: usize,
    buffer: &mut [u8],
) -> Result<usize, Refusal>
    ensures { given (number_of result) (value_or0 result ∷ []) buffer.new (buffers server.now view.now log.new)
        ≡ step (geometry n b m) (Call.take program buffer.old) (buffers server.now view.now log.old) }
{
    if let Err(refusal) = admit(n, b, m, server, view, log) {
        return Err(refusal);
    }
    if let Err(refusal) = number_refusal(program) {
        return Err(refusal);
    }
    match loss_in(log, m, program) {
        None => Err(Refusal::NotFound),
        Some(i) => {
            if buffer.len() < LONGEST {
                return Err(Refusal::ShortBuffer);
            }
            Ok(log_take::take(log, m, i, buffer))
        }
    }
}
