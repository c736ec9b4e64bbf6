// What more than one of the programs needs to read its input: a buffer filled from a reader, and the digits and bytes of cases that stand in text.
#![tactic(auto)]

mod answer;
mod case_reader;
mod gathered;

ghost use Rattle.std.specs.Prelude.{◌≡◌, ℕ, ◌+◌, ◌*◌, ◌≤◌, ◌<◌, length, take, IfOk, IfSome};
ghost use Rattle.std.specs.Io.KnownBytes.{Consumes, IsAtEnd};
ghost use Rattle.names.specs.GapName.{digit};

pub use answer::Answer;
pub use case_reader::{CaseReader, Mode, Turn};
pub use gathered::Gathered;
use std::io;
use std::io::Read;

// Reads until the buffer is full or the input ends, and says how many bytes of the buffer were read.
// A read gives as many bytes as it likes: there is nothing to count.
pub fn read_full<R: Read>(input: &mut R, buf: &mut [u8]) -> io::Result<usize>
    ensures inside { IfOk result (λ n. n ≤ length buf.new) }
    ensures bytes { IfOk result (λ n. Consumes (R.remaining input.old) (R.remaining input.new) (take n buf.new)) }
    ensures end { IfOk result (λ n. n < length buf.new → IsAtEnd (R.remaining input.new)) }
{
    let mut done = 0;
    while done < buf.len() {
        let n = input.read(&mut buf[done..])?;
        if n == 0 {
            return Ok(done);
        }
        done += n;
    }
    Ok(done)
}

// The value of a digit, 0 to 9 and A to F, if it is one.
pub fn digit(c: u8) -> Option<u8>
    ensures is { IfSome result (λ d. (d < 16) × (digit d ≡ c)) }
    ensures each { (k : ℕ) → k < 16 → digit k ≡ c → result ≡ Some k }
{
    match c {
        b'0'..=b'9' => Some(c - b'0'),
        b'A'..=b'F' => Some(c - b'A' + 10),
        _ => None,
    }
}

// A decimal digit more; numbers stay below a million.
pub fn longer(n: usize, d: u8) -> usize
    ensures more { n < 100000 → result ≡ n * 10 + d }
    ensures stays { 100000 ≤ n → result ≡ n }
{
    if n < 100000 {
        return n * 10 + (d as usize);
    }
    n
}
