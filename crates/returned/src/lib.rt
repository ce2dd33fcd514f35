// What a call returns (document 01, "Returned numbers"): the refusals with their numbers, and the shapes in which an entry hands its
// returned number and its other results to C. The numbers' definitions are in specs/Returned.antt.
#![tactic(auto)]

ghost use Rattle.std.specs.Prelude.{◌≡◌};
ghost use Rattle.returned.specs.Refusal.{refusal_number, number_of, value_or0};
ghost use Rattle.returned.specs.Returned.{rank_of};
ghost use Rattle.returned.specs.Shapes.{code, value, status};

// What a call is refused for, each reason with its returned number.
#[derive(Clone, Copy, PartialEq, Eq)]
pub enum Refusal {
    WrongBuffer = 1,
    Damaged = 2,
    BadProgram = 3,
    Marked = 4,
    BadName = 5,
    LongName = 6,
    BadNumber = 7,
    NoObject = 8,
    WrongKind = 9,
    Taken = 10,
    NotEmpty = 11,
    BadRange = 12,
    LogFull = 13,
    Spent = 14,
    NotFirst = 15,
    NotFound = 16,
    LinkLost = 17,
    LossesLeft = 18,
    ShortBuffer = 19,
    BadRecord = 20,
}

impl Refusal {
    pub fn number(self) -> usize
        ensures { result ≡ refusal_number self }
    {
        self as usize
    }

    // The rank of a refusal: of two that refuse a call the one of the lower rank wins.
    pub fn rank(self) -> usize
        ensures { result ≡ rank_of (refusal_number self) }
    {
        rank(self.number())
    }
}

// The rank of a number.
pub fn rank(number: usize) -> usize
    ensures { result ≡ rank_of number }
{
    number
}

// The returned number alone.
#[repr(C)]
#[derive(Drop)]
pub struct Code {
    pub returned: u64,
}

// The returned number and one other result.
#[repr(C)]
#[derive(Drop)]
pub struct Value {
    pub returned: u64,
    pub value: u64,
}

// The returned number, then "stat (kind, length, usage)".
#[repr(C)]
#[derive(Drop)]
pub struct Status {
    pub returned: u64,
    pub kind: u64,
    pub length: u64,
    pub usage: u64,
}

impl Code {
    pub fn of(number: usize) -> Code
        ensures { result ≡ code number }
    {
        Code {
            returned: number as u64,
        }
    }
}

impl From<Result<(), Refusal>> for Code {
    ghost from_gives = { λ r c. c ≡ code (number_of r) };

    fn from(res: Result<(), Refusal>) -> Code {
        match res {
            Ok(()) => Code { returned: 0 },
            Err(refusal) => Code::of(refusal.number()),
        }
    }
}

impl From<Result<usize, Refusal>> for Value {
    ghost from_gives = { λ r c. c ≡ value (number_of r) (value_or0 r) };

    fn from(res: Result<usize, Refusal>) -> Value {
        match res {
            Ok(res) => Value::of(0, res),
            Err(refusal) => Value::refused(refusal.number()),
        }
    }
}

impl Value {
    pub fn of(number: usize, res: usize) -> Value
        ensures { result ≡ value number res }
    {
        Value {
            returned: number as u64,
            value: res as u64,
        }
    }

    // "The other results of a refusal are 0".
    pub fn refused(number: usize) -> Value
        ensures { result ≡ value number 0 }
    {
        Value::of(number, 0)
    }
}

impl Status {
    pub fn of(kind: usize, length: usize, usage: usize) -> Status
        ensures { result ≡ status 0 kind length usage }
    {
        Status {
            returned: 0,
            kind: kind as u64,
            length: length as u64,
            usage: usage as u64,
        }
    }

    pub fn refused(number: usize) -> Status
        ensures { result ≡ status number 0 0 0 }
    {
        Status {
            returned: number as u64,
            kind: 0,
            length: 0,
            usage: 0,
        }
    }
}
