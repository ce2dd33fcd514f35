// Operations of a log being sent to the server (document 01, "Calls"): one of them, or those that fsync needs.
#![tactic(auto)]

ghost use Rattle.std.specs.Prelude.{◌≡◌, true, ◌≤◌, ◌<◌, length};
ghost use Rattle.volume_tree.specs.Stored.{read_volume};
ghost use Rattle.volume_tree.specs.Code.Lent.{Formed};
ghost use Rattle.log_rules.specs.Slot.{good_slots};
ghost use Rattle.log_rules.specs.Code.Slots.{slots_in, slot_at, Slotted};
ghost use Rattle.log_send.specs.Code.Sends.{Sent, Turn, SentFound};

use log_slots::SLOT;
use log_slots::slot::recorded;
use record_reader::read_record;
use volume::apply::apply;
use volume_applies::applies::applies;

// How many operations were sent, and how many may be at most.
#[derive(Drop)]
pub struct Tally {
    pub sent: usize,
    pub most: usize,
}

// Sends the operation at a position of a log: it is applied to the server if it applies; whether it did is the result.
pub fn send_slot(server: &mut [u8], n: usize, b: usize, s: &[u8], i: usize) -> bool
    requires formed { Formed n b server.old }
    requires slotted { Slotted s.now }
    requires s_value { (good_slots n b (slots_in s.now) ≡ true) × (i < length (slots_in s.now)) }
    ensures { Sent b (read_volume n b server.old) (slot_at (slots_in s.now) i).recorded.operation server.new result }
{
    let rec = recorded(s, i);
    let Some(w) = read_record(rec, 0) else {
        return false;
    };
    if applies(server, n, b, rec, w) {
        apply(server, n, b, rec, w);
        return true;
    }
    false
}

// The turn of the operation at a position: one in the set is sent, or taken out of the set, and then no later one is sent.
fn send_at(
    server: &mut [u8],
    n: usize,
    b: usize,
    s: &[u8],
    found: &mut [u8],
    i: usize,
    tally: Tally,
) -> Tally
    requires formed { Formed n b server.old }
    requires slotted { Slotted s.now }
    requires s_value { (good_slots n b (slots_in s.now) ≡ true) × (i < length (slots_in s.now)) × (i < length found.old) }
    ensures { Turn b (read_volume n b server.old) (slot_at (slots_in s.now) i).recorded.operation i found.old tally server.new found.new result }
{
    if found[i] != 1 {
        return tally;
    }
    let sent = tally.sent;
    if sent < tally.most {
        if send_slot(server, n, b, s, i) {
            return Tally {
                sent: sent + 1,
                ..tally
            };
        }
    }
    found[i] = 0;
    Tally { sent, most: sent }
}

// "Fsync's counted sends within k": sends the operations of a set in issue order, at most k, up to the first that does not
// apply. Those that were not sent are taken out of the set. "The number of sends is in the result."
pub fn send_found(
    server: &mut [u8],
    n: usize,
    b: usize,
    s: &[u8],
    found: &mut [u8],
    k: usize,
) -> usize
    requires formed { Formed n b server.old }
    requires slotted { Slotted s.now }
    requires s_value { (good_slots n b (slots_in s.now) ≡ true) × (length (slots_in s.now) ≤ length found.old) }
    ensures { SentFound b k (slots_in s.now) (read_volume n b server.old) found.old server.new found.new result }
{
    let mut tally = Tally { sent: 0, most: k };
    for i in 0..s.len() / SLOT {
        tally = send_at(server, n, b, s, found, i, tally);
    }
    tally.sent
}
