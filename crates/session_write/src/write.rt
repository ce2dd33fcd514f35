// "Write lies in one block": inside the length of the file, beginning at it, or across the end (document 02, K1).
ghost use Rattle.std.specs.Prelude.{◌≡◌, ◌≤◌, [], ◌∷◌};
ghost use Rattle.volume_tree.specs.Stored.{read_volume};
ghost use Rattle.volume_tree.specs.Code.Lent.{Lent};
ghost use Rattle.session.specs.Call.{geometry, buffers, issuer};
ghost use Rattle.session.specs.Call;
ghost use Rattle.session.specs.Step.{given, step};
ghost use Rattle.session.specs.Edit.{bad_range, write_rows};
ghost use Rattle.session.specs.Code.Table.{first_number};
ghost use Rattle.returned.specs.Refusal.{number_of, value_or0};

use crate::file::length_of;
use buffer::BLOCK;
use log_draft::Issuer;
use returned::Refusal;
use session_admission::lent::admit;
use session_admission::object::file_refusal;
use session_change::accept_change;
use session_operations::operations::{issue_writes, operations};

// "12 Bad range: write of 0 bytes, across blocks .., beyond length or b": for numbers of any size.
fn bad_range(b: usize, len: usize, offset: usize, count: usize) -> bool
    requires { b ≤ 64 }
    ensures { result ≡ bad_range b len offset count }
{
    let most = BLOCK * b;
    count == 0
        || BLOCK < count
        || BLOCK < offset % BLOCK + count
        || len < offset
        || most < offset
        || most - offset < count
}

// What the object, the offset and the data are refused for.
pub fn write_refusal(
    view: &[u8],
    n: usize,
    b: usize,
    object: usize,
    offset: usize,
    data: &[u8],
) -> Result<(), Refusal>
    requires { Lent n b view.now }
    ensures { number_of result ≡ first_number (write_rows b (read_volume n b view.now) object offset «data».now) }
{
    if let Err(refusal) = file_refusal(view, n, b, object) {
        return Err(refusal);
    }
    let len = length_of(view, n, b, object);
    if bad_range(b, len, offset, data.len()) {
        return Err(Refusal::BadRange);
    }
    Ok(())
}

pub fn write(
    n: usize,
    b: usize,
    m: usize,
    server: &[u8],
    view: &mut [u8],
    log: &mut [u8],
    program: usize,
    object: usize,
    offset: usize,
    data: &[u8],
) -> Result<usize, Refusal>
    ensures { given (number_of result) (value_or0 result ∷ []) [] (buffers server.now view.new log.new)
        ≡ step (geometry n b m) (Call.write (issuer program) object offset «data».now) (buffers server.now view.old log.old) }
{
    if let Err(refusal) = admit(n, b, m, server, view, log) {
        return Err(refusal);
    }
    let own = write_refusal(view, n, b, object, offset, data);
    let len = length_of(view, n, b, object);
    let count = operations(len, offset, data);
    if let Err(refusal) = accept_change(log, n, b, m, program, own, count) {
        return Err(refusal);
    }
    let by = Issuer { program };
    let number = issue_writes(log, view, n, b, m, by, object, len, offset, data);
    Ok(number)
}
