// Fsync "needs d sends .. in issue order", of which the link carries k (document 01, "Calls").
#![tactic(auto)]

ghost use Rattle.std.specs.Prelude.{◌≡◌, [], ◌∷◌, length};
ghost use Rattle.volume_tree.specs.Stored.{read_volume};
ghost use Rattle.volume_tree.specs.Code.Lent.{Lent};
ghost use Rattle.log_rules.specs.Stored.{log_bytes, read_log};
ghost use Rattle.session.specs.Call.{geometry, buffers};
ghost use Rattle.session.specs.Call;
ghost use Rattle.session.specs.Step.{given, step};
ghost use Rattle.session.specs.Code.Table.{first_number};
ghost use Rattle.session.specs.Send.{sync_rows};
ghost use Rattle.returned.specs.Refusal.{number_of};
ghost use Rattle.session_fsync.specs.Answer.{answered_number, sends_told};

use log_fsync::Synced;
use returned::{Refusal, Value};
use session_admission::lent::admit;
use session_admission::object::object_refusal;
use session_admission::program::program_refusal;
use volume_write::format::copy_volume;

// The refusal of an fsync before its sends.
fn sync_refusal(
    view: &[u8],
    log: &[u8],
    n: usize,
    b: usize,
    m: usize,
    program: usize,
    object: usize,
) -> Result<(), Refusal>
    requires lent { Lent n b view.now }
    requires log_len { length log.now ≡ log_bytes m }
    ensures { number_of result ≡ first_number (sync_rows program object (read_volume n b view.now) (read_log m log.now)) }
{
    if let Err(refusal) = program_refusal(log, m, program) {
        return Err(refusal);
    }
    object_refusal(view, n, b, object)
}

// What became of the sends of an fsync, or the refusal before any of them.
fn sync(
    n: usize,
    b: usize,
    m: usize,
    server: &mut [u8],
    view: &mut [u8],
    log: &mut [u8],
    program: usize,
    object: usize,
    sends: usize,
) -> Result<Synced, Refusal>
    ensures { given (answered_number result) (sends_told result ∷ []) [] (buffers server.new view.new log.new)
        ≡ step (geometry n b m) (Call.fsync program object sends) (buffers server.old view.old log.old) }
{
    if let Err(refusal) = admit(n, b, m, server, view, log) {
        return Err(refusal);
    }
    if let Err(refusal) = sync_refusal(view, log, n, b, m, program, object) {
        return Err(refusal);
    }
    let answer = log_fsync::sync_object(server, log, n, b, m, program, object, sends);
    if let Synced::Lost(_) = answer {
        copy_volume(view, server);
    }
    Ok(answer)
}

// The returned number of an answer, and how many were sent: refusals 2 and 17 after the sends tell it too.
fn value_of(answer: Result<Synced, Refusal>) -> Value
    ensures returned_value { result.returned ≡ answered_number answer }
    ensures value_value { result.value ≡ sends_told answer }
{
    match answer {
        Ok(Synced::Sent(count)) => Value::of(0, count),
        Ok(Synced::Stopped(count)) => Value::of(Refusal::Damaged.number(), count),
        Ok(Synced::Lost(count)) => Value::of(Refusal::LinkLost.number(), count),
        Err(refusal) => Value::of(refusal.number(), 0),
    }
}

pub fn fsync(
    n: usize,
    b: usize,
    m: usize,
    server: &mut [u8],
    view: &mut [u8],
    log: &mut [u8],
    program: usize,
    object: usize,
    sends: usize,
) -> Value
    ensures { given result.returned (result.value ∷ []) [] (buffers server.new view.new log.new)
        ≡ step (geometry n b m) (Call.fsync program object sends) (buffers server.old view.old log.old) }
{
    value_of(sync(n, b, m, server, view, log, program, object, sends))
}
