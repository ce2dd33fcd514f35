// Paths (document 01, "Names and paths"): the text of a path, and the path splitter. Nothing is ever cut: a text that is too long
// is refused whole.
#![tactic(auto)]

ghost use Rattle.std.specs.Prelude.{◌≡◌, ◌-◌, ◌≤◌, length, take, drop};
ghost use Rattle.paths.specs.Path.{path_text_of, up_to_slash, component_at};

// What a path is by its text, before any component is looked at.
#[derive(Clone, Copy, PartialEq, Eq)]
pub enum PathText {
    Root,
    Components,
}

// The text of a path, none where it is bad: 1..1,023 bytes that start with a slash; "/" alone is the root.
pub fn path_text(path: &[u8]) -> Option<PathText>
    ensures { result ≡ path_text_of path.now }
{
    if path.len() == 0 {
        return None;
    }
    if 1023 < path.len() {
        return None;
    }
    if path[0] != 47 {
        return None;
    }
    if path.len() == 1 {
        return Some(PathText::Root);
    }
    Some(PathText::Components)
}

// Where the component that begins at a place ends: at the next slash, or at the path's end.
fn component_end(path: &[u8], at: usize) -> usize
    requires { at ≤ length path.now }
    ensures { (at ≤ result) × (result ≤ length path.now) × (take (result - at) (drop at path.now)
        ≡ up_to_slash (drop at path.now)) }
{
    for i in at..path.len() {
        if path[i] == 47 {
            return i;
        }
    }
    path.len()
}

// The component that begins at a place, as a part of the lent path; the next one begins one past the slash after it, at
// the place plus its length plus 1, and there is none where that is past the path's end.
pub fn component(path: &[u8], at: usize) -> &[u8]
    ensures { result.now ≡ component_at path.now at }
{
    if at <= path.len() {
        let end = component_end(path, at);
        &path[at..end]
    } else {
        &path[..0]
    }
}
