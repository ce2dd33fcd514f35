// What fsync does to the server and the log (document 01, "Calls" and "Returned numbers"): it sends what the object needs, as far as
// the link carries it, and counts the sends.
#![tactic(auto)]

ghost use Rattle.std.specs.Prelude.{◌≡◌, ◌<◌, min};
ghost use Rattle.volume_tree.specs.Stored.{read_volume};
ghost use Rattle.volume_tree.specs.Code.Lent.{Formed};
ghost use Rattle.log_rules.specs.Stored.{read_log};
ghost use Rattle.log_rules.specs.Code.Slots.{Logged};
ghost use Rattle.log_fsync.specs.Code.Synced.{SyncLeaves};

use log_dependence::note;
use log_discard::discard;
use log_order::needed;
use log_push::free_sent;
use log_send::send_found;
use log_slots::head::used;
use log_slots::{HEAD, SLOT};
use log_touch::set::one;

// All that is needed was sent; an operation among the first k did not apply; or the link fell. Each with the number of sends.
#[derive(Drop)]
pub enum Synced {
    Sent(usize),
    Stopped(usize),
    Lost(usize),
}

// The smaller of two numbers.
fn least(a: usize, b: usize) -> usize
    ensures { result ≡ min a b }
{
    if a < b {
        return a;
    }
    b
}

// Sends what an object needs, at most k operations. Without a bad one among these the program's dependence is noted; with a link
// that does not carry all of them the rest is discarded.
pub fn sync_object(
    server: &mut [u8],
    log: &mut [u8],
    n: usize,
    b: usize,
    m: usize,
    program: usize,
    object: usize,
    k: usize,
) -> Synced
    requires formed { Formed n b server.old }
    requires logged { Logged n b m log.old }
    requires program_bound { (program < 32) × (object < 256) }
    ensures { SyncLeaves b m program object k (read_volume n b server.old) (read_log m log.old) server.new log.new result }
{
    let mut found = [0u8; 1024];
    let end = HEAD + used(log, m) * SLOT;
    let d = needed(&log[HEAD..end], object, &mut found);
    let sent = send_found(server, n, b, &log[HEAD..end], &mut found, k);
    if sent < least(k, d) {
        free_sent(log, m, &found);
        return Synced::Stopped(sent);
    }
    let mut reached = one(object);
    note(log, m, program, &mut reached);
    free_sent(log, m, &found);
    if d <= k {
        return Synced::Sent(sent);
    }
    discard(log, m);
    Synced::Lost(sent)
}
