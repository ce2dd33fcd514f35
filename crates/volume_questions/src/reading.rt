// Read: "Read gives the smaller of the buffer length and what follows the offset; other bytes stay."
ghost use Rattle.std.specs.Prelude.{◌≡◌, Err};
ghost use Rattle.returned.specs.Refusal.{refusal_number};
ghost use Rattle.volume_tree.specs.Stored.{read_volume};
ghost use Rattle.volume_tree.specs.Code.Lent.{Lent};
ghost use Rattle.volume_questions.specs.Answer.{read_answer, read_leaves, read_number};

use crate::object::{ObjectError, ObjectKind, object_at};
use buffer::put::put_bytes;
use buffer::span::stretch_of;
use returned::Refusal;
use volume_entry::field::contents;
use volume_tree::entries::entry;

// Why nothing is read.
#[derive(Clone, Copy, PartialEq, Eq)]
pub enum ReadError {
    BadNumber,
    NoObject,
    WrongKind,
    BadRange,
}

impl From<ReadError> for Refusal {
    ghost from_gives = { λ e r. refusal_number r ≡ read_number (Err e) };

    fn from(error: ReadError) -> Refusal {
        match error {
            ReadError::BadNumber => Refusal::BadNumber,
            ReadError::NoObject => Refusal::NoObject,
            ReadError::WrongKind => Refusal::WrongKind,
            ReadError::BadRange => Refusal::BadRange,
        }
    }
}

// Copies a file's bytes from an offset on to the start of a buffer, as many as there are and as fit.
pub fn read(
    s: &[u8],
    n: usize,
    b: usize,
    o: usize,
    offset: usize,
    buf: &mut [u8],
) -> Result<usize, ReadError>
    requires { Lent n b s.now }
    ensures answer { result ≡ read_answer (read_volume n b s.now) o offset buf.old }
    ensures buffer { buf.new ≡ read_leaves (read_volume n b s.now) o offset buf.old }
{
    match object_at(s, n, b, o) {
        Err(ObjectError::BadNumber) => Err(ReadError::BadNumber),
        Err(ObjectError::NoObject) => Err(ReadError::NoObject),
        Ok(ObjectKind::Directory) => Err(ReadError::WrongKind),
        Ok(ObjectKind::File) => {
            let c = contents(entry(s, n, b, o));
            if c.len() < offset {
                return Err(ReadError::BadRange);
            }
            Ok(put_bytes(buf, 0, stretch_of(c, offset, buf.len())))
        }
    }
}
