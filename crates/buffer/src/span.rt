// Stretches of a buffer.
#![tactic(auto, using(crate::specs::Laws::Span::stretches))]

ghost use Rattle.std.specs.Prelude.{◌≡◌, take, drop};

// Where a stretch of the buffer lies.
#[derive(Clone, Copy)]
pub struct Span {
    pub start: usize,
    pub len: usize,
}

// The stretch of a buffer from a start on: so many bytes, or as many as there are.
pub fn stretch_of(s: &[u8], start: usize, len: usize) -> &[u8]
    ensures { result.now ≡ take len (drop start s.now) }
{
    if s.len() <= start {
        return &s[..0];
    }
    if s.len() - start <= len {
        return &s[start..];
    }
    &s[start..start + len]
}
