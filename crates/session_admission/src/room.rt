// "13 Log full", "14 Spent".
ghost use Rattle.std.specs.Prelude.{◌≡◌, ◌≤◌};
ghost use Rattle.log_rules.specs.Stored.{read_log};
ghost use Rattle.log_rules.specs.Code.Slots.{Logged};
ghost use Rattle.session.specs.Call.{geometry};
ghost use Rattle.session.specs.Model.{room_for};
ghost use Rattle.session.specs.Code.Table.{first_number};
ghost use Rattle.returned.specs.Refusal.{number_of};

use log_slots::head::{next_number, used};
use returned::Refusal;

// "next number is 4,294,967,295": no operation takes this one.
pub const LAST: usize = 4294967295;

// The refusal of so many operations for want of slots or numbers.
pub fn room_refusal(log: &[u8], n: usize, b: usize, m: usize, count: usize) -> Result<(), Refusal>
    requires logged { Logged n b m log.now }
    requires count_bound { count ≤ 1024 }
    ensures { number_of result ≡ first_number (room_for (geometry n b m) (read_log m log.now) count) }
{
    if m < used(log, m) + count {
        return Err(Refusal::LogFull);
    }
    if LAST < next_number(log, m) + count {
        return Err(Refusal::Spent);
    }
    Ok(())
}
