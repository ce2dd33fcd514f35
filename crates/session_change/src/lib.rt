// What all changes and forder share (document 01, "Calls" and "Returned numbers"): a change is refused for its program (3 and 4), by
// its own table, or for want of room (13 and 14).
#![tactic(auto)]

ghost use Rattle.std.specs.Prelude.{◌≡◌, ◌≤◌, Ok};
ghost use Rattle.log_rules.specs.Stored.{read_log};
ghost use Rattle.log_rules.specs.Code.Slots.{Logged};
ghost use Rattle.session.specs.Call.{geometry};
ghost use Rattle.session_change.specs.Code.Change.{change_number};
ghost use Rattle.returned.specs.Refusal.{number_of};

use returned::Refusal;
use session_admission::program::program_refusal;
use session_admission::room::room_refusal;

// What a change's own table lets pass, or the refusal: for its program, by its own table, or for want of room for so many operations.
pub fn accept_change<T: Drop>(
    log: &[u8],
    n: usize,
    b: usize,
    m: usize,
    program: usize,
    own: Result<T, Refusal>,
    count: usize,
) -> Result<T, Refusal>
    requires logged { Logged n b m log.now }
    requires count_bound { count ≤ 1024 }
    ensures number { number_of result ≡ change_number (geometry n b m) (read_log m log.now) program (number_of own) count }
    ensures value { (x : T) → result ≡ Ok x → own ≡ Ok x }
{
    if let Err(refusal) = program_refusal(log, m, program) {
        return Err(refusal);
    }
    match own {
        Err(refusal) => Err(refusal),
        Ok(value) => {
            if let Err(refusal) = room_refusal(log, n, b, m, count) {
                return Err(refusal);
            }
            Ok(value)
        }
    }
}
