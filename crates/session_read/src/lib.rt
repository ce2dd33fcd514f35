// "Read gives the smaller of the buffer length and what follows the offset; other bytes stay" (document 01, "Calls").
#![tactic(auto)]

ghost use Rattle.std.specs.Prelude.{◌≡◌, [], ◌∷◌};
ghost use Rattle.session.specs.Call.{geometry, buffers};
ghost use Rattle.session.specs.Call;
ghost use Rattle.session.specs.Step.{given, step};
ghost use Rattle.returned.specs.Refusal.{number_of, value_or0};

use returned::Refusal;
use session_questions::{first_refusal, note_object};

pub fn read(
    n: usize,
    b: usize,
    m: usize,
    server: &[u8],
    view: &[u8],
    log: &mut [u8],
    program: usize,
    object: usize,
    offset: usize,
    buffer: &mut [u8],
) -> Result<usize, Refusal>
    ensures { given (number_of result) (value_or0 result ∷ []) buffer.new (buffers server.now view.now log.new)
        ≡ step (geometry n b m) (Call.read program object offset buffer.old) (buffers server.now view.now log.old) }
{
    if let Err(refusal) = first_refusal(n, b, m, server, view, log, program) {
        return Err(refusal);
    }
    match volume_questions::reading::read(view, n, b, object, offset, buffer) {
        Ok(count) => {
            note_object(log, m, program, object);
            Ok(count)
        }
        Err(error) => Err(Refusal::from(error)),
    }
}
