// Where a word, or a line, ends.
ghost use Rattle.std.specs.Prelude.{◌≡◌, ◌≤◌, length, take};
ghost use Rattle.script_words.specs.Word.{before};

// How many bytes stand before the first byte of a kind; all where there is none.
pub fn until(s: &[u8], b: u8) -> usize
    ensures { (result ≤ length s.now) × (take result s.now ≡ before b s.now) }
{
    s.iter().position(|&x| x == b).unwrap_or(s.len())
}
