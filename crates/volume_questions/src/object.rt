// An object that a call names by its number, and stat.
ghost use Rattle.std.specs.Prelude.{◌≡◌, Err};
ghost use Rattle.returned.specs.Refusal.{refusal_number};
ghost use Rattle.volume_tree.specs.Stored.{read_volume};
ghost use Rattle.volume_tree.specs.Code.Lent.{Lent};
ghost use Rattle.volume_questions.specs.Answer.{object_answer, object_number, stat_answer};

use returned::Refusal;
use volume_entry::field::{contents, is_file, is_used, kind, usage_of};
use volume_tree::entries::entry;

// What an object is that a number names.
#[derive(Clone, Copy, PartialEq, Eq)]
pub enum ObjectKind {
    File,
    Directory,
}

// Why a number names no object.
#[derive(Clone, Copy, PartialEq, Eq)]
pub enum ObjectError {
    BadNumber,
    NoObject,
}

impl From<ObjectError> for Refusal {
    ghost from_gives = { λ e r. refusal_number r ≡ object_number (Err e) };

    fn from(error: ObjectError) -> Refusal {
        match error {
            ObjectError::BadNumber => Refusal::BadNumber,
            ObjectError::NoObject => Refusal::NoObject,
        }
    }
}

// "stat (kind, length, usage)".
#[derive(Clone, Copy)]
pub struct Stat {
    pub kind: usize,
    pub len: usize,
    pub usage: usize,
}

// "7 Bad number: object n or more", "8 No object: entry free".
pub fn object_at(s: &[u8], n: usize, b: usize, o: usize) -> Result<ObjectKind, ObjectError>
    requires { Lent n b s.now }
    ensures { result ≡ object_answer (read_volume n b s.now) o }
{
    if n <= o {
        return Err(ObjectError::BadNumber);
    }
    let e = entry(s, n, b, o);
    if is_used(e) {
        if is_file(e) {
            return Ok(ObjectKind::File);
        }
        return Ok(ObjectKind::Directory);
    }
    Err(ObjectError::NoObject)
}

// "stat (kind, length, usage)".
pub fn stat_of(s: &[u8], n: usize, b: usize, o: usize) -> Result<Stat, ObjectError>
    requires { Lent n b s.now }
    ensures { result ≡ stat_answer (read_volume n b s.now) o }
{
    if n <= o {
        return Err(ObjectError::BadNumber);
    }
    let e = entry(s, n, b, o);
    if is_used(e) {
        let len = contents(e).len();
        return Ok(Stat {
            kind: kind(e),
            len,
            usage: usage_of(len),
        });
    }
    Err(ObjectError::NoObject)
}
