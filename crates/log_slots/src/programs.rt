// Sets of programs in 4 bytes: "bit p for program p".
ghost use Rattle.std.specs.Prelude.{◌≡◌, ◌^◌, ◌≤◌, ◌<◌};
ghost use Rattle.log_rules.specs.Programs.{holds, with, without, union};

// The bit of a program.
fn bit(p: usize) -> usize
    requires { p < 32 }
    ensures { (result ≡ 2 ^ p) × (1 ≤ result) × (result < 4294967296) }
{
    1usize << p
}

// Whether a program is in a set.
pub fn is_in(set: usize, p: usize) -> bool
    requires { p < 32 }
    ensures { result ≡ holds set p }
{
    set / bit(p) % 2 == 1
}

// A set with a program.
pub fn with_program(set: usize, p: usize) -> usize
    requires p_bound { p < 32 }
    requires set_bound { set < 4294967296 }
    ensures { result ≡ with set p }
{
    if is_in(set, p) {
        return set;
    }
    set + bit(p)
}

// A set without a program.
pub fn without_program(set: usize, p: usize) -> usize
    requires { p < 32 }
    ensures { result ≡ without set p }
{
    if is_in(set, p) {
        return set - bit(p);
    }
    set
}

// The programs of two sets.
pub fn union_of(a: usize, b: usize) -> usize
    requires { (a < 4294967296) × (b < 4294967296) }
    ensures { result ≡ union a b }
{
    a | b
}
