// "stat (kind, length, usage)" (document 01, "Calls").
#![tactic(auto)]

ghost use Rattle.std.specs.Prelude.{◌≡◌, [], ◌∷◌};
ghost use Rattle.session_stat.specs.Status.{status_or0};
ghost use Rattle.session.specs.Call.{geometry, buffers};
ghost use Rattle.session.specs.Call;
ghost use Rattle.session.specs.Step.{given, step};
ghost use Rattle.returned.specs.Refusal.{number_of};

use returned::{Refusal, Status};
use session_questions::{first_refusal, note_object};
use volume_questions::object::{Stat, stat_of};

pub fn stat(
    n: usize,
    b: usize,
    m: usize,
    server: &[u8],
    view: &[u8],
    log: &mut [u8],
    program: usize,
    object: usize,
) -> Result<Stat, Refusal>
    ensures { given (number_of result) (status_or0 result) [] (buffers server.now view.now log.new)
        ≡ step (geometry n b m) (Call.stat program object) (buffers server.now view.now log.old) }
{
    if let Err(refusal) = first_refusal(n, b, m, server, view, log, program) {
        return Err(refusal);
    }
    match stat_of(view, n, b, object) {
        Ok(told) => {
            note_object(log, m, program, object);
            Ok(told)
        }
        Err(error) => Err(Refusal::from(error)),
    }
}

// What stat tells, or the refusal, as a struct of numbers.
pub fn status_of(res: Result<Stat, Refusal>) -> Status
    ensures returned { result.returned ≡ number_of res }
    ensures told { (result.kind ∷ result.length ∷ result.usage ∷ []) ≡ status_or0 res }
{
    match res {
        Ok(told) => Status::of(told.kind, told.len, told.usage),
        Err(refusal) => Status::refused(refusal.number()),
    }
}
