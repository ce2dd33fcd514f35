// An object that a call names by its number: "7 Bad number", "8 No object", "9 Wrong kind".
ghost use Rattle.std.specs.Prelude.{◌≡◌, []};
ghost use Rattle.volume_tree.specs.Stored.{read_volume};
ghost use Rattle.volume_tree.specs.Code.Lent.{Lent};
ghost use Rattle.volume_questions.specs.Answer.{object_answer};
ghost use Rattle.session.specs.Model.{object_rows};
ghost use Rattle.session.specs.Edit.{file_rows};
ghost use Rattle.session.specs.Code.Table.{first_number};
ghost use Rattle.session_admission.specs.Code.Objects.{named_number, directory_rows};
ghost use Rattle.returned.specs.Refusal.{number_of};

use returned::Refusal;
use volume_questions::object::{ObjectError, ObjectKind, object_at};

// 7 and 8; else the number that is given for a file and for a directory.
fn named_refusal(
    view: &[u8],
    n: usize,
    b: usize,
    object: usize,
    file: Result<(), Refusal>,
    directory: Result<(), Refusal>,
) -> Result<(), Refusal>
    requires { Lent n b view.now }
    ensures { number_of result ≡ named_number (number_of file) (number_of directory) (object_answer (read_volume n b view.now) object) }
{
    match object_at(view, n, b, object) {
        Err(ObjectError::BadNumber) => Err(Refusal::BadNumber),
        Err(ObjectError::NoObject) => Err(Refusal::NoObject),
        Ok(ObjectKind::File) => file,
        Ok(ObjectKind::Directory) => directory,
    }
}

// The refusal of an object of either kind; none is `Ok`.
pub fn object_refusal(view: &[u8], n: usize, b: usize, object: usize) -> Result<(), Refusal>
    requires { Lent n b view.now }
    ensures { number_of result ≡ first_number (object_rows (read_volume n b view.now) object) }
{
    named_refusal(view, n, b, object, Ok(()), Ok(()))
}

// The refusal where a file is asked for.
pub fn file_refusal(view: &[u8], n: usize, b: usize, object: usize) -> Result<(), Refusal>
    requires { Lent n b view.now }
    ensures { number_of result ≡ first_number (file_rows (read_volume n b view.now) object []) }
{
    named_refusal(view, n, b, object, Ok(()), Err(Refusal::WrongKind))
}

// The refusal where a directory is asked for.
pub fn directory_refusal(view: &[u8], n: usize, b: usize, object: usize) -> Result<(), Refusal>
    requires { Lent n b view.now }
    ensures { number_of result ≡ first_number (directory_rows (read_volume n b view.now) object) }
{
    named_refusal(view, n, b, object, Err(Refusal::WrongKind), Ok(()))
}
