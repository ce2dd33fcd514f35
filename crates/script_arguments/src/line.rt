// A line, read.
ghost use Rattle.std.specs.Prelude.{◌≡◌, ◌≤◌, true, length, Ok, None};
ghost use Rattle.script_arguments.specs.Blank.{blank};

use crate::arguments::Arguments;
use crate::command::read_command;
use script_words::command::{BadLine, Command};
use script_words::word::until;

// The longest line without its newline.
pub const LONGEST: usize = 8191;

// Reads a line, given without its newline: its command, or none where it is empty or a comment.
pub fn read_line(
    line: &[u8],
    first: &mut [u8],
    second: &mut [u8],
) -> Result<Option<Command>, BadLine>
    requires { (2048 ≤ length first.old) × (2048 ≤ length second.old) }
    ensures { length line.now ≤ 8191 → blank line.now ≡ true → result ≡ Ok None }
{
    if LONGEST < line.len() {
        return Err(BadLine);
    }
    if line.is_empty() || line[0] == b'#' {
        return Ok(None);
    }
    let end = until(line, b' ');
    let mut a = Arguments::new(&line[end..]);
    let command = read_command(&line[..end], &mut a, first, second).ok_or(BadLine)?;
    a.end().ok_or(BadLine)?;
    Ok(Some(command))
}
