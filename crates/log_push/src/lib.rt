// What is sent leaves the log (document 01, "Calls"): the slot of one operation, and the slots of all that fsync sent, in one pass.
#![tactic(auto)]

ghost use Rattle.std.specs.Prelude.{◌≡◌, true, ◌≤◌, ◌<◌, length};
ghost use Rattle.volume_tree.specs.Stored.{read_volume};
ghost use Rattle.volume_tree.specs.Code.Lent.{Formed};
ghost use Rattle.log_rules.specs.Slot.{is_waiting};
ghost use Rattle.log_rules.specs.Stored.{encode_log, read_log};
ghost use Rattle.log_rules.specs.Sends.{sent_all};
ghost use Rattle.log_rules.specs.Code.Slots.{slot_at, Logged, used_in};
ghost use Rattle.log_rules.specs.Code.Flags.{chosen, AllWait};
ghost use Rattle.log_push.specs.Code.Pushed.{Pushed};

use log_compact::{free_slot, free_slots};
use log_send::send_slot;
use log_slots::head::used;
use log_slots::{HEAD, SLOT};

// Sends the waiting operation at a position and frees its slot; whether it applied.
pub fn push(server: &mut [u8], log: &mut [u8], n: usize, b: usize, m: usize, i: usize) -> bool
    requires formed { Formed n b server.old }
    requires logged { Logged n b m log.old }
    requires i_bound { (i < used_in m log.old) × (is_waiting (slot_at (read_log m log.old).slots i) ≡ true) }
    ensures { Pushed b m (read_volume n b server.old) (read_log m log.old) i log.old log.new server.new result }
{
    let end = HEAD + used(log, m) * SLOT;
    if send_slot(server, n, b, &log[HEAD..end], i) {
        free_slot(&mut log[HEAD..end], i);
        return true;
    }
    false
}

// Frees the slots of the operations that were sent.
pub fn free_sent(log: &mut [u8], m: usize, sent: &[u8])
    requires logged { Logged 256 64 m log.old }
    requires log_in_bounds { (used_in m log.old ≤ length sent.now) × AllWait sent.now (read_log m log.old).slots }
    ensures { log.new
        ≡ encode_log m (sent_all (chosen sent.now (read_log m log.old).slots) (read_log m log.old)) }
{
    let end = HEAD + used(log, m) * SLOT;
    free_slots(&mut log[HEAD..end], sent);
}
