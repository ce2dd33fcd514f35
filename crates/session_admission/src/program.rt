// "3 Bad program", "4 Marked".
ghost use Rattle.std.specs.Prelude.{◌≡◌, [], ◌∷◌, length};
ghost use Rattle.log_rules.specs.Stored.{log_bytes, read_log};
ghost use Rattle.session.specs.Model.{bad_program, program_rows};
ghost use Rattle.session.specs.Code.Table.{first_number};
ghost use Rattle.returned.specs.Refusal.{number_of};

use log_slots::head::is_marked;
use returned::Refusal;

// "32 or more".
pub const PROGRAMS: usize = 32;

// The refusal of a program's number; none is `Ok`.
pub fn number_refusal(program: usize) -> Result<(), Refusal>
    ensures { number_of result ≡ first_number (bad_program program ∷ []) }
{
    if program < PROGRAMS {
        return Ok(());
    }
    Err(Refusal::BadProgram)
}

// The refusal of a program.
pub fn program_refusal(log: &[u8], m: usize, program: usize) -> Result<(), Refusal>
    requires { length log.now ≡ log_bytes m }
    ensures { number_of result ≡ first_number (program_rows (read_log m log.now) program) }
{
    if program < PROGRAMS {
        if is_marked(log, m, program) {
            return Err(Refusal::Marked);
        }
        return Ok(());
    }
    Err(Refusal::BadProgram)
}
