// The commands of a script, each with its arguments. A `usize` counts bytes that were given: those at the start of the first
// buffer, and for a second name those at the start of the second.

// One of the three areas.
#[derive(Clone, Copy)]
pub enum Area {
    Server,
    View,
    Log,
}

// The numbers passed in every call.
#[derive(Clone, Copy, Default)]
pub struct Given {
    pub n: u64,
    pub b: u64,
    pub m: u64,
}

// A line that is no command with its arguments, or asks for what cannot be: a bad line.
#[derive(Clone, Copy)]
pub struct BadLine;

// What a line asks for.
#[derive(Clone, Copy)]
pub enum Command {
    Play(Play),
    Call(Call),
}

// A command on the areas and on the numbers given.
#[derive(Clone, Copy)]
pub enum Play {
    Give(Given),
    Size { server: u64, view: u64, log: u64 },
    Fit,
    Poke { area: Area, at: u64, bytes: usize },
    Copy { to: Area, from: Area },
    Show { area: Area, at: u64, count: u64 },
    Digest,
}

// An object, and the program that asks.
#[derive(Clone, Copy)]
pub struct Object {
    pub program: u64,
    pub number: u64,
}

// A name in a directory, and the program that asks.
#[derive(Clone, Copy)]
pub struct Entry {
    pub program: u64,
    pub parent: u64,
    pub name: usize,
}

// A call.
#[derive(Clone, Copy)]
pub enum Call {
    Control(Control),
    Question(Question),
    Operation(Operation),
}

// A call that sets up, sends or gives up.
#[derive(Clone, Copy)]
pub enum Control {
    Format,
    Mount,
    Push { sequence: u64 },
    Fsync { object: Object, sends: u64 },
    Cut,
    Renew { program: u64 },
}

// A call that asks.
#[derive(Clone, Copy)]
pub enum Question {
    Lookup {
        program: u64,
        path: usize,
    },
    List {
        object: Object,
        buffer: usize,
    },
    Stat(Object),
    Read {
        object: Object,
        at: u64,
        buffer: usize,
    },
    Take {
        program: u64,
        buffer: usize,
    },
    Record {
        at: u64,
        bytes: usize,
    },
}

// A call that issues an operation.
#[derive(Clone, Copy)]
pub enum Operation {
    Name(Entry, Change),
    Write {
        object: Object,
        at: u64,
        bytes: usize,
    },
    Setlen {
        object: Object,
        length: u64,
    },
    Forder {
        program: u64,
        list: usize,
    },
}

// What is asked for a name.
#[derive(Clone, Copy)]
pub enum Change {
    // The number of the object that is made.
    Create(u64),
    Mkdir(u64),
    Rmfile,
    Rmdir,
    // The directory that it goes to, and the name there.
    Rename { to: u64, name: usize },
}
