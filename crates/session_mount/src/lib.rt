// "Format makes a server volume with only a root. Mount checks the server volume, copies it to the view and begins an empty log"
// (document 01, "Calls").
#![tactic(auto)]

ghost use Rattle.std.specs.Prelude.{◌≡◌, ◌&&◌, [], length};
ghost use Rattle.log_rules.specs.Slot.{empty_log};
ghost use Rattle.log_rules.specs.Stored.{log_bytes, encode_log};
ghost use Rattle.session.specs.Call.{geometry, buffers, in_range, server_fits};
ghost use Rattle.session.specs.Step.{given, format, format_leaves, mount};
ghost use Rattle.returned.specs.Refusal.{number_of};

use buffer::zero::clear;
use log_slots::NEXT_AT;
use returned::Refusal;
use session_admission::lent::lengths_fit;
use volume_form::well_formed;
use volume_tree::entries::is_lent;
use volume_write::format::{copy_volume, format_volume};

// Whether n, b, m and the server volume's length are as document 01 has them.
fn volume_fits(n: usize, b: usize, m: usize, server: &[u8]) -> bool
    ensures { result ≡ in_range (geometry n b m) && server_fits (geometry n b m) server.now }
{
    if is_lent(server, n, b) {
        if 1 <= m {
            return m <= 1024;
        }
    }
    false
}

// "an empty log, next number 1 and no marks".
fn begin_log(log: &mut [u8], m: usize)
    requires { length log.old ≡ log_bytes m }
    ensures { log.new ≡ encode_log m empty_log }
{
    clear(log);
    log[NEXT_AT] = 1;
}

// Format: "1 Wrong buffer", or a volume with only a root, whatever the bytes were.
pub fn format(n: usize, b: usize, m: usize, server: &mut [u8]) -> Result<(), Refusal>
    ensures returned { number_of result ≡ format (geometry n b m) server.old }
    ensures volume { server.new ≡ format_leaves (geometry n b m) server.old }
{
    if volume_fits(n, b, m, server) {
        format_volume(server, n, b);
        return Ok(());
    }
    Err(Refusal::WrongBuffer)
}

// Mount: 1, 2, or the server volume copied and an empty log, whatever the view and the log were.
pub fn mount(
    n: usize,
    b: usize,
    m: usize,
    server: &[u8],
    view: &mut [u8],
    log: &mut [u8],
) -> Result<(), Refusal>
    ensures { given (number_of result) [] [] (buffers server.now view.new log.new)
        ≡ mount (geometry n b m) (buffers server.now view.old log.old) }
{
    if lengths_fit(n, b, m, server, view, log) {
        if well_formed(server, n, b) {
            copy_volume(view, server);
            begin_log(log, m);
            return Ok(());
        }
        return Err(Refusal::Damaged);
    }
    Err(Refusal::WrongBuffer)
}
