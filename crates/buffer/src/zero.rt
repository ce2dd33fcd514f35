// Stretches without use: "Bytes not in use are zero".
#![tactic(auto, using(crate::specs::Laws::Zero::seen), unfolding(crate::specs::Code::Zero::zeros))]

ghost use Rattle.std.specs.Prelude.{◌≡◌, length, replicate};
ghost use Rattle.buffer.specs.Code.Zero.{zeros};

// Whether all bytes are zero. The loop has no exit, so that many bytes are tested at a time.
pub fn all_zero(s: &[u8]) -> bool
    ensures { result ≡ zeros s.now }
{
    let mut seen = 0u8;
    for b in s {
        seen |= *b;
    }
    seen == 0
}

// Makes all bytes zero.
pub fn clear(s: &mut [u8])
    ensures { s.new ≡ replicate (length s.old) 0 }
{
    for b in s.iter_mut() {
        *b = 0;
    }
}
