// A word as a number, and a number printed.
ghost use Rattle.std.specs.Prelude.{◌≡◌, ◌+◌, ◌≤◌, length};
ghost use Rattle.buffer.specs.Patch.{Put};
ghost use Rattle.text.specs.Decimal.{decimal};
ghost use Rattle.script_words.specs.Number.{DigitOf, NumberOf};

use text::decimal::put_decimal;

// The value of a byte as a digit.
fn digit(c: u8) -> Option<u64>
    ensures { DigitOf c result }
{
    match c {
        b'0'..=b'9' => Some(u64::from(c - b'0')),
        _ => None,
    }
}

// What no number but 0 begins with.
const ZERO: u8 = b'0';

// Reads "decimal digits, 0 to 18,446,744,073,709,551,615, no sign, no needless leading zero".
pub fn read_number(w: &[u8]) -> Option<u64>
    ensures { NumberOf w.now result }
{
    let [first, ..] = w else {
        return None;
    };
    if *first == ZERO {
        return if w.len() == 1 { Some(0) } else { None };
    }
    let mut v: u64 = 0;
    for &c in w {
        let d = digit(c)?;
        v = v.checked_mul(10)?.checked_add(d)?;
    }
    Some(v)
}

// Puts a number at a place, and answers the place after it.
pub fn put_number(v: u64, out: &mut [u8], at: usize) -> usize
    requires { at + 20 ≤ length out.old }
    ensures { (result ≤ at + 20) × Put (decimal v) at out.old out.new result }
{
    put_decimal(v as usize, out, at)
}
