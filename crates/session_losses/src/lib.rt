// What take and renew share (document 01, "Calls"): "the earliest loss of a program", in a whole log.
#![tactic(auto)]

ghost use Rattle.log_rules.specs.Stored.{read_log};
ghost use Rattle.log_rules.specs.Change.{is_loss_of};
ghost use Rattle.log_rules.specs.Code.Slots.{Logged};
ghost use Rattle.log_find.specs.Code.Found.{FoundBy};

use log_find::loss_of;
use log_slots::head::used;
use log_slots::{HEAD, SLOT};

// Where a program's earliest loss stands among the used slots.
pub fn loss_in(log: &[u8], m: usize, program: usize) -> Option<usize>
    requires { Logged 256 64 m log.now }
    ensures { FoundBy (is_loss_of program) (read_log m log.now).slots result }
{
    let end = HEAD + used(log, m) * SLOT;
    loss_of(&log[HEAD..end], program)
}
