// What a line prints.
ghost use Rattle.std.specs.Prelude.{◌+◌, ◌≤◌, length};

use crate::front::front;
use buffer::put::put_bytes;
use script_bytes::put_hex;
use script_words::number::put_number;

// The numbers that a line prints.
#[derive(Clone, Copy)]
pub enum Answer {
    // The returned number alone.
    Code([u64; 1]),
    // One more result.
    Value([u64; 2]),
    // One more result, and the buffer, of which so many bytes were lent.
    Shown([u64; 2], usize),
    // The digests of the areas.
    Digests([u64; 3]),
    // `stat` has three more results.
    Status([u64; 4]),
    // `record` has four more results.
    Loss([u64; 5]),
}

impl Answer {
    fn numbers(&self) -> &[u64]
        ensures { length result.now ≤ 5 }
    {
        match self {
            Answer::Code(numbers) => numbers,
            Answer::Value(numbers) | Answer::Shown(numbers, _) => numbers,
            Answer::Digests(numbers) => numbers,
            Answer::Status(numbers) => numbers,
            Answer::Loss(numbers) => numbers,
        }
    }
}

// The numbers, separated by single spaces.
fn put_numbers(numbers: &[u64], out: &mut [u8]) -> usize
    requires { (length numbers.now ≤ 5) × (105 ≤ length out.old) }
    ensures { result ≤ 105 }
{
    let mut at = 0;
    for (i, &v) in numbers.iter().enumerate() {
        if 0 < i {
            out[at] = b' ';
            at += 1;
        }
        at = put_number(v, out, at);
    }
    at
}

// The whole line of a call, and of a digest.
pub fn put_answer(answer: &Answer, buffer: &[u8], out: &mut [u8]) -> usize
    requires { (length buffer.now ≤ 2048) × (4352 ≤ length out.old) }
    ensures { result ≤ length out.old }
{
    let mut at = put_numbers(answer.numbers(), out);
    if let Answer::Shown(_, lent) = answer {
        let n = front(*lent, buffer);
        out[at] = b' ';
        at = put_hex(&buffer[..n], out, at + 1);
    }
    out[at] = b'\n';
    at + 1
}

// The line of a bad line.
pub fn put_bad(line: u64, out: &mut [u8]) -> usize
    requires { 4352 ≤ length out.old }
    ensures { result ≤ length out.old }
{
    let at = put_bytes(out, 0, b"bad line ");
    let end = put_number(line, out, at);
    out[end] = b'\n';
    end + 1
}
