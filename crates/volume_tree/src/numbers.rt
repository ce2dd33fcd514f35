// The numbers below a bound: whether each passes a test, and the lowest that does.
ghost use Rattle.std.specs.Prelude.{◌≡◌, ◌<◌, ℕ, Bool};
ghost use Rattle.volume_tree.specs.Volume.{every, lowest};

// Whether every number below n passes a test.
pub fn every<F: Fn(usize) -> bool>(n: usize, test: F) -> bool
    requires { (i : ℕ) → i < n → F.pre test i }
    ensures { (f : ℕ → Bool) → ((i : ℕ) (r : Bool) → i < n → F.post test i r → r ≡ f i) → result ≡ every n f }
{
    for i in 0..n {
        if !test(i) {
            return false;
        }
    }
    true
}

// The lowest number below n that passes a test, if there is one.
pub fn lowest<F: Fn(usize) -> bool>(n: usize, test: F) -> Option<usize>
    requires { (i : ℕ) → i < n → F.pre test i }
    ensures { (f : ℕ → Bool) → ((i : ℕ) (r : Bool) → i < n → F.post test i r → r ≡ f i) → result ≡ lowest n f }
{
    for i in 0..n {
        if test(i) {
            return Some(i);
        }
    }
    None
}
