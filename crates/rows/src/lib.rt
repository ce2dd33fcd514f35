// Document 02, K5, "A longest wait for each size of file": rows as they are lent, read row by row, and when an operation is due.
#![tactic(auto)]

ghost use Rattle.std.specs.Prelude.{◌≡◌, true, ◌+◌, ◌<◌, ◌≤◌, min, List, length, drop, Bool, cond};
ghost use Rattle.std.specs.List.{slice_get};
ghost use Rattle.rows.specs.Rows.{in_row, good_seconds, rows_with, any_row, is_left_out, is_doubled, has_gap, has_overlap, has_bad_seconds};
ghost use Rattle.rows.specs.Stored.{row_bytes, read_row, rows_in, rows_fit};
ghost use Rattle.rows.specs.declared.Row.{Row};
ghost use Rattle.rows.specs.Due.{last_time, time_now, due_time};

use buffer::number::four_at;
use std::marker::Model;

// "12 bytes a row".
pub const ROW: usize = 12;

// "up to 16 rows".
pub const ROWS: usize = 16;

// The longest length that lies in a row.
const LAST_LENGTH: usize = 65536;

// The last time: a number of 4 bytes.
const LAST_TIME: usize = 4294967295;

// "shortest length, longest length, seconds (1 to 3,600)".
#[derive(Clone, Copy)]
pub struct Row {
    pub shortest: u32,
    pub longest: u32,
    pub seconds: u32,
}

impl Row {
    // The row at a place of some bytes.
    fn read(bytes: &[u8], at: usize) -> Row
        requires { at + row_bytes ≤ length bytes.now }
        ensures { result ≡ read_row (drop at bytes.now) }
    {
        Row {
            shortest: four_at(bytes, at) as u32,
            longest: four_at(bytes, at + 4) as u32,
            seconds: four_at(bytes, at + 8) as u32,
        }
    }

    // Whether a length lies in the row.
    fn holds(self, n: usize) -> bool
        ensures { result ≡ in_row n self }
    {
        self.shortest as usize <= n && n <= self.longest as usize
    }

    // Whether its seconds are "1 to 3,600".
    fn has_good_seconds(self) -> bool
        ensures { result ≡ good_seconds self }
    {
        1 <= self.seconds && self.seconds <= 3600
    }
}

// Rows as they are lent: whole rows, 16 at most.
#[derive(Drop)]
pub struct Rows<'a> {
    bytes: &'a [u8],
}

impl<'a> Model for Rows<'a> {
    ghost Value = { List Row };

    ghost view = { λ r. rows_in r.bytes.now };

    ghost invariant = { λ r. rows_fit r.bytes.now ≡ true };
}

impl<'a> Rows<'a> {
    // The rows that bytes hold: "over 16 rows, or a part of one, are refusal 1".
    pub fn of(bytes: &'a [u8]) -> Option<Rows<'a>>
        ensures { result ≡ cond (rows_fit bytes.now) (Some (rows_in bytes.now)) None }
    {
        if bytes.len() % ROW == 0 && bytes.len() / ROW <= ROWS {
            Some(Rows { bytes })
        } else {
            None
        }
    }

    // How many rows there are.
    #[tactic(auto, using(crate::proofs::Laws::Walk::rows_read))]
    fn count(&self) -> usize
        ensures { result ≡ length self.now }
    {
        self.bytes.len() / ROW
    }

    // The row at a position.
    #[tactic(auto, using(crate::proofs::Laws::Walk::rows_read))]
    fn row(&self, i: usize) -> Row
        requires { i < length self.now }
        ensures { slice_get self.now i ≡ Some result }
    {
        Row::read(self.bytes, i * ROW)
    }

    // Whether some row passes a test.
    #[tactic(auto, using(crate::proofs::Laws::Walk::tests))]
    fn any_row<F: Fn(Row) -> bool>(&self, test: F) -> bool
        requires { F.IsAlwaysCallable test }
        ensures { (f : Row → Bool) → ((r : Row) (t : Bool) → F.post test r t → t ≡ f r) → result ≡ any_row f self.now }
    {
        for i in 0..self.count() {
            if test(self.row(i)) {
                return true;
            }
        }
        false
    }

    // In how many rows a length lies.
    #[tactic(auto, using(crate::proofs::Laws::Walk::walks))]
    pub fn rows_with(&self, n: usize) -> usize
        ensures { result ≡ rows_with n self.now }
    {
        let mut held = 0;
        for i in 0..self.count() {
            if self.row(i).holds(n) {
                held += 1;
            }
        }
        held
    }

    // Whether a length is one up to 65,536 in no row.
    fn is_left_out(&self, n: usize) -> bool
        ensures { result ≡ is_left_out self.now n }
    {
        n <= LAST_LENGTH && self.rows_with(n) == 0
    }

    // Whether a length is one up to 65,536 in more than one row.
    fn is_doubled(&self, n: usize) -> bool
        ensures { result ≡ is_doubled self.now n }
    {
        n <= LAST_LENGTH && 1 < self.rows_with(n)
    }

    // "a length up to 65,536 in no row": 0 is asked, and the length behind each row's longest.
    #[tactic(auto, unfolding(crate::specs::Rows::has_gap))]
    pub fn has_gap(&self) -> bool
        ensures { result ≡ has_gap self.now }
    {
        self.is_left_out(0) || self.any_row(|row| self.is_left_out(row.longest as usize + 1))
    }

    // "one in more than one row": the shortest of each row is asked.
    #[tactic(auto, unfolding(crate::specs::Rows::has_overlap))]
    pub fn has_overlap(&self) -> bool
        ensures { result ≡ has_overlap self.now }
    {
        self.any_row(|row| self.is_doubled(row.shortest as usize))
    }

    // "seconds out of range", in any row.
    #[tactic(auto, unfolding(crate::specs::Rows::has_bad_seconds))]
    pub fn has_bad_seconds(&self) -> bool
        ensures { result ≡ has_bad_seconds self.now }
    {
        self.any_row(|row| !row.has_good_seconds())
    }

    // When an operation is due, by its issue time and the length: "its issue time plus the seconds for the length".
    #[tactic(auto, using(crate::proofs::Laws::Walk::walks), unfolding(crate::specs::Due::due_time))]
    pub fn due_time(&self, time: usize, n: usize) -> usize
        requires { time < 4294967296 }
        ensures { (result ≡ due_time time n self.now) × (result < 4294967296) }
    {
        for i in 0..self.count() {
            let row = self.row(i);
            if row.holds(n) {
                return later(time, row.seconds as usize);
            }
        }
        LAST_TIME
    }
}

// A time plus some seconds: "It stops at 4,294,967,295".
fn later(time: usize, seconds: usize) -> usize
    requires time_bound { time < 4294967296 }
    requires seconds_bound { seconds < 4294967296 }
    ensures { (result ≡ min last_time (time + seconds)) × (result < 4294967296) }
{
    let due = time + seconds;
    if due < LAST_TIME { due } else { LAST_TIME }
}

// "an earlier time than one already seen counts as the latest seen".
#[tactic(auto, unfolding(crate::specs::Due::time_now))]
pub fn time_now(clock: usize, latest: usize) -> usize
    requires clock_bound { clock < 4294967296 }
    requires latest_bound { latest < 4294967296 }
    ensures { (result ≡ time_now clock latest) × (result < 4294967296) }
{
    if clock < latest { latest } else { clock }
}
