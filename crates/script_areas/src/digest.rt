// The digest of an area: FNV-1a in 64 bits.
ghost use Rattle.std.specs.Prelude.{◌≡◌};
ghost use Rattle.script_areas.specs.Digest.{offset, digest_from};

const OFFSET: u64 = 14695981039346656037;

const PRIME: u64 = 1099511628211;

// The digest of all bytes.
pub fn digest(s: &[u8]) -> u64
    ensures { result ≡ digest_from offset s.now }
{
    let mut h = OFFSET;
    for &b in s {
        h = (h ^ u64::from(b)).wrapping_mul(PRIME);
    }
    h
}
