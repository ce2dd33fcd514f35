// The parts of a log that is lent as a slice (document 01, "Geometry and stored form"): the numbers of its head, how many slots
// are used, and each used slot by its position.
#![tactic(auto)]

pub mod head;
pub mod programs;
pub mod slot;

// "next sequence number (4 ..), marked programs (4 ..)": where they stand, and the bytes of the head.
pub const NEXT_AT: usize = 0;

pub const MARKS_AT: usize = 4;

pub const HEAD: usize = 8;

// "m slots of 1,048 bytes".
pub const SLOT: usize = 1048;

// Where the dependents and the loss record stand in a slot, behind "state (1 ..), 3 zero bytes"; and where the record's part ends.
pub const DEPENDENTS_AT: usize = 4;

pub const RECORD_START: usize = 8;

pub const RECORD_END: usize = 1048;

// "state (1: 0 free, 1 waiting, 2 lost)".
pub const FREE: usize = 0;

pub const WAITING: usize = 1;

pub const LOST: usize = 2;
