// "Push sends the waiting operation of a given sequence number and frees its slot" (document 01, "Calls").
#![tactic(auto)]

ghost use Rattle.std.specs.Prelude.{◌≡◌, [], ◌<◌};
ghost use Rattle.log_rules.specs.Stored.{read_log};
ghost use Rattle.log_rules.specs.Order.{preceded};
ghost use Rattle.log_rules.specs.Change.{is_sequence, waiting_of};
ghost use Rattle.log_rules.specs.Code.Slots.{slot_at, Logged, used_in};
ghost use Rattle.log_find.specs.Code.Found.{FoundBy};
ghost use Rattle.session.specs.Call.{geometry, buffers};
ghost use Rattle.session.specs.Call;
ghost use Rattle.session.specs.Step.{given, step};
ghost use Rattle.returned.specs.Refusal.{number_of};

use log_find::waiting_at;
use log_order::is_preceded;
use log_slots::head::used;
use log_slots::{HEAD, SLOT};
use returned::Refusal;
use session_admission::lent::admit;

// Where the waiting operation of a sequence number stands among the used slots of a log.
fn waiting_in(log: &[u8], m: usize, sequence: usize) -> Option<usize>
    requires { Logged 256 64 m log.now }
    ensures { FoundBy (is_sequence sequence) (read_log m log.now).slots result }
{
    let end = HEAD + used(log, m) * SLOT;
    waiting_at(&log[HEAD..end], sequence)
}

// "15 Not first: a predecessor waits", of the operation at a position.
fn is_behind(log: &[u8], m: usize, i: usize) -> bool
    requires logged { Logged 256 64 m log.now }
    requires i_bound { i < used_in m log.now }
    ensures { result ≡ preceded (waiting_of (read_log m log.now).slots) (slot_at (read_log m log.now).slots i).recorded }
{
    let end = HEAD + used(log, m) * SLOT;
    is_preceded(&log[HEAD..end], i)
}

// Only a waiting operation can have a predecessor, so that 16 may be asked before 15.
pub fn push(
    n: usize,
    b: usize,
    m: usize,
    server: &mut [u8],
    view: &[u8],
    log: &mut [u8],
    sequence: usize,
) -> Result<(), Refusal>
    ensures { given (number_of result) [] [] (buffers server.new view.now log.new)
        ≡ step (geometry n b m) (Call.push sequence) (buffers server.old view.now log.old) }
{
    if let Err(refusal) = admit(n, b, m, server, view, log) {
        return Err(refusal);
    }
    match waiting_in(log, m, sequence) {
        None => Err(Refusal::NotFound),
        Some(i) => {
            if is_behind(log, m, i) {
                return Err(Refusal::NotFirst);
            }
            if log_push::push(server, log, n, b, m, i) {
                return Ok(());
            }
            Err(Refusal::Damaged)
        }
    }
}
