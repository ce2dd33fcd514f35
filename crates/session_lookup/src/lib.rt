// "Lookup alone takes a path and gives an object number"; its "operands are the directories it searches and the object found"
// (document 01, "Calls").
#![tactic(auto)]

ghost use Rattle.std.specs.Prelude.{◌≡◌, [], ◌∷◌};
ghost use Rattle.session.specs.Call.{geometry, buffers};
ghost use Rattle.session.specs.Call;
ghost use Rattle.session.specs.Step.{given, step};
ghost use Rattle.returned.specs.Refusal.{number_of, value_or0};

use log_dependence::note;
use returned::Refusal;
use session_questions::first_refusal;

pub fn lookup(
    n: usize,
    b: usize,
    m: usize,
    server: &[u8],
    view: &[u8],
    log: &mut [u8],
    program: usize,
    path: &[u8],
) -> Result<usize, Refusal>
    ensures { given (number_of result) (value_or0 result ∷ []) [] (buffers server.now view.now log.new)
        ≡ step (geometry n b m) (Call.lookup program path.now) (buffers server.now view.now log.old) }
{
    if let Err(refusal) = first_refusal(n, b, m, server, view, log, program) {
        return Err(refusal);
    }
    let mut marks = [0u8; 256];
    match volume_lookup::lookup::lookup(view, n, b, path, &mut marks) {
        Ok(object) => {
            note(log, m, program, &mut marks);
            Ok(object)
        }
        Err(error) => Err(Refusal::from(error)),
    }
}
