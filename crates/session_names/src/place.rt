// The object that a name leads to in a directory that a call names by its number.
ghost use Rattle.volume_tree.specs.Stored.{read_volume};
ghost use Rattle.volume_tree.specs.Code.Lent.{Lent};
ghost use Rattle.session_names.specs.Code.Rows.{found_rows, Finds};

use returned::Refusal;
use session_admission::object::directory_refusal;
use volume_tree::search::search;

// The object that a name leads to: refused as the directory is, and with 8 where there is none.
pub fn seek(view: &[u8], n: usize, b: usize, parent: usize, name: &[u8]) -> Result<usize, Refusal>
    requires { Lent n b view.now }
    ensures { Finds (read_volume n b view.now) parent name.now (found_rows (read_volume n b view.now) parent name.now) result }
{
    if let Err(refusal) = directory_refusal(view, n, b, parent) {
        return Err(refusal);
    }
    match search(view, n, b, parent, name) {
        Some(object) => Ok(object),
        None => Err(Refusal::NoObject),
    }
}
