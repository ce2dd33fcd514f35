// What the four questions, lookup, list, stat and read, do before and after they are asked (document 01, "Calls").
#![tactic(auto)]

ghost use Rattle.std.specs.Prelude.{◌≡◌, [], ◌∷◌, ◌<◌};
ghost use Rattle.log_rules.specs.Stored.{encode_log, read_log};
ghost use Rattle.log_rules.specs.Change.{note};
ghost use Rattle.log_rules.specs.Code.Slots.{Logged};
ghost use Rattle.session_questions.specs.Code.Asked.{first_refusal};
ghost use Rattle.returned.specs.Refusal.{number_of};

use log_dependence::note;
use log_touch::set::one;
use returned::Refusal;
use session_admission::lent::admit;
use session_admission::program::program_refusal;

// The refusal of a question for what it is lent or for its program.
pub fn first_refusal(
    n: usize,
    b: usize,
    m: usize,
    server: &[u8],
    view: &[u8],
    log: &[u8],
    program: usize,
) -> Result<(), Refusal>
    ensures { number_of result ≡ first_refusal n b m program server.now view.now log.now }
{
    if let Err(refusal) = admit(n, b, m, server, view, log) {
        return Err(refusal);
    }
    program_refusal(log, m, program)
}

// The log after an accepted question about an object.
pub fn note_object(log: &mut [u8], m: usize, program: usize, object: usize)
    requires logged { Logged 256 64 m log.old }
    requires program_bound { program < 32 }
    requires object_bound { object < 256 }
    ensures { log.new ≡ encode_log m (note program (object ∷ []) (read_log m log.old)) }
{
    let mut reached = one(object);
    note(log, m, program, &mut reached);
}
