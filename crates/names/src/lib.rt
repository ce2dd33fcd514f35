// Names (document 01, "Names and paths"): the permitted bytes, the text of a name, and the same name. Nothing is ever cut: a text
// that is too long is refused whole.
#![tactic(auto)]

ghost use Rattle.std.specs.Prelude.{◌≡◌};
ghost use Rattle.returned.specs.Refusal.{refusal_number};
ghost use Rattle.names.specs.Name.{all_permitted, is_dots, name_text_of, error_number, lower_case, same_name};

use returned::Refusal;

// "A name has 1..60 bytes".
pub const LONGEST_NAME: usize = 60;

// Why a text is no name: bad, or long.
#[derive(Clone, Copy, PartialEq, Eq)]
pub enum NameError {
    Bad,
    Long,
}

impl From<NameError> for Refusal {
    ghost from_gives = { λ e r. refusal_number r ≡ error_number e };

    fn from(error: NameError) -> Refusal {
        match error {
            NameError::Bad => Refusal::BadName,
            NameError::Long => Refusal::LongName,
        }
    }
}

// Whether every byte of s may stand in a name: each may but 0 and 47, the slash, which is worked out (document 02, K3).
fn all_permitted(s: &[u8]) -> bool
    ensures { result ≡ all_permitted s.now }
{
    for b in s {
        if *b == 0 {
            return false;
        }
        if *b == 47 {
            return false;
        }
    }
    true
}

// Whether s is "." or "..".
fn is_dots(s: &[u8]) -> bool
    ensures { result ≡ is_dots s.now }
{
    if s.len() == 1 {
        return s[0] == 46;
    }
    if s.len() == 2 {
        if s[0] == 46 {
            return s[1] == 46;
        }
    }
    false
}

// Whether a text is a name's: else it is bad or long, and what is both bad and long is bad.
pub fn name_text(s: &[u8]) -> Result<(), NameError>
    ensures { result ≡ name_text_of s.now }
{
    if s.len() == 0 {
        return Err(NameError::Bad);
    }
    if is_dots(s) {
        return Err(NameError::Bad);
    }
    if all_permitted(s) {
        if s.len() <= LONGEST_NAME {
            return Ok(());
        }
        return Err(NameError::Long);
    }
    Err(NameError::Bad)
}

// A byte in lower case: A to Z become a to z, and no other byte changes.
fn lower_case(v: u8) -> u8
    ensures { result ≡ lower_case v }
{
    if 65 <= v {
        if v <= 90 {
            return v + 32;
        }
    }
    v
}

// Whether two texts are the same name: the same bytes, all of them, whatever the case of their letters.
pub fn same_name(a: &[u8], b: &[u8]) -> bool
    ensures { result ≡ same_name a.now b.now }
{
    if a.len() != b.len() {
        return false;
    }
    for i in 0..a.len() {
        if lower_case(a[i]) != lower_case(b[i]) {
            return false;
        }
    }
    true
}
