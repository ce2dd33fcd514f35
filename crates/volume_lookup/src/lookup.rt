// Lookup: a path is followed component by component, "its text checked and then looked up, before the next".
ghost use Rattle.std.specs.Prelude.{◌≡◌, ◌≤◌, ◌<◌, length, Err};
ghost use Rattle.volume_tree.specs.Stored.{read_volume};
ghost use Rattle.volume_tree.specs.Code.Lent.{Lent};
ghost use Rattle.paths.specs.Path.{components};
ghost use Rattle.returned.specs.Refusal.{refusal_number};
ghost use Rattle.volume_lookup.specs.Lookup.{component_answer, components_answer, components_objects, lookup_answer, lookup_operands, reached_number};
ghost use Rattle.volume_lookup.specs.Code.Marks.{objects_marked};

use names::{NameError, name_text};
use paths::{PathText, component, path_text};
use returned::Refusal;
use volume_entry::field::is_directory;
use volume_tree::entries::entry;
use volume_tree::search::search;

// Why a path leads to no object: the first refusal by component.
#[derive(Clone, Copy, PartialEq, Eq)]
pub enum LookupError {
    BadName,
    LongName,
    NoObject,
    WrongKind,
}

impl From<LookupError> for Refusal {
    ghost from_gives = { λ e r. refusal_number r ≡ reached_number (Err e) };

    fn from(error: LookupError) -> Refusal {
        match error {
            LookupError::BadName => Refusal::BadName,
            LookupError::LongName => Refusal::LongName,
            LookupError::NoObject => Refusal::NoObject,
            LookupError::WrongKind => Refusal::WrongKind,
        }
    }
}

// One component sought in an object.
fn seek(s: &[u8], n: usize, b: usize, o: usize, text: &[u8]) -> Result<usize, LookupError>
    requires lent { Lent n b s.now }
    requires o_lt_n { o < n }
    ensures { result ≡ component_answer (read_volume n b s.now) o text.now }
{
    match name_text(text) {
        Err(NameError::Bad) => Err(LookupError::BadName),
        Err(NameError::Long) => Err(LookupError::LongName),
        Ok(()) => {
            if is_directory(entry(s, n, b, o)) {
                match search(s, n, b, o, text) {
                    Some(i) => Ok(i),
                    None => Err(LookupError::NoObject),
                }
            } else {
                Err(LookupError::WrongKind)
            }
        }
    }
}

// Follows the components of a path from the root, marking each object found.
fn walk(
    s: &[u8],
    n: usize,
    b: usize,
    path: &[u8],
    marks: &mut [u8; 256],
) -> Result<usize, LookupError>
    requires lent { Lent n b s.now }
    requires in_bounds { 1 ≤ length path.now }
    ensures answer { result ≡ components_answer (read_volume n b s.now) 0 (components path.now) }
    ensures operands { marks.new
        ≡ objects_marked (components_objects (read_volume n b s.now) 0 (components path.now)) marks.old }
{
    let mut o = 0;
    let mut at = 1;
    while at <= path.len() {
        let text = component(path, at);
        let answer = seek(s, n, b, o, text);
        let Ok(i) = answer else {
            return answer;
        };
        marks[i] = 1;
        o = i;
        at += text.len() + 1;
    }
    Ok(o)
}

// The object that a path leads to, or the first refusal; the objects searched and found are marked.
pub fn lookup(
    s: &[u8],
    n: usize,
    b: usize,
    path: &[u8],
    marks: &mut [u8; 256],
) -> Result<usize, LookupError>
    requires { Lent n b s.now }
    ensures answer { result ≡ lookup_answer (read_volume n b s.now) path.now }
    ensures operands { marks.new
        ≡ objects_marked (lookup_operands (read_volume n b s.now) path.now) marks.old }
{
    match path_text(path) {
        None => Err(LookupError::BadName),
        Some(PathText::Root) => {
            marks[0] = 1;
            Ok(0)
        }
        Some(PathText::Components) => {
            marks[0] = 1;
            walk(s, n, b, path, marks)
        }
    }
}
