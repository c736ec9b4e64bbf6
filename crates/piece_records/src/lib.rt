// Piece records, kind 7, one after another in lent bytes: document 02, (e). They are counted once, with their checks; then each pass over them goes from record to
// record. Nothing is copied.
#![tactic(auto)]

ghost use Rattle.std.specs.Prelude.{◌≡◌, ◌+◌, ◌≤◌, length};
ghost use Rattle.obj.specs.Answers.{meaning};
ghost use Rattle.piece_records.specs.Records.{part_at, record_bad, count_from, Lying, IsHead};

use fields::Field;
use frames::is_cut;
pub use frames::next_at;
use obj::{Refusal, refuse};

// A piece without its bytes.
#[derive(Clone, Copy)]
pub struct PieceHead {
    pub section: u16,
    pub address: u32,
    pub length: u32,
}

impl PieceHead {
    // The address after its last byte.
    pub fn end(&self) -> usize
        ensures { result ≡ self.now.address + self.now.«length» }
    {
        (self.address as usize) + (self.length as usize)
    }
}

// "up to 1,024 pieces"
pub const MOST_PIECES: u32 = 1024;

// 1: "file cut" in its head or its payload, "unknown kind", "payload length wrong".
fn record_bad(b: &[u8], at: usize) -> bool
    requires { at ≤ length b.now }
    ensures { result ≡ record_bad b.now at }
{
    if is_cut(b, at) {
        return true;
    }
    (u16::get(b, at + 4) != 7) | (u32::get(b, at) < 6)
}

// What is read below is asked at a place where a record lies whole (`Lying`): a struct of the bytes and the place would be made anew for each record and read once.

// The section, the address and the number of bytes of the piece at `at`.
pub fn head_at(b: &[u8], at: usize) -> PieceHead
    requires { Lying b.now at }
    ensures { IsHead (part_at b.now at) result }
{
    PieceHead {
        section: u16::get(b, at + 6),
        address: u32::get(b, at + 8),
        length: u32::get(b, at) - 6,
    }
}

// The bytes of the piece at `at`: the part of the lent ones where they lie.
pub fn bytes_at<'a>(b: &'a [u8], at: usize) -> &'a [u8]
    requires { Lying b.now at }
    ensures { result.now ≡ (part_at b.now at).bytes }
{
    let size = u32::get(b, at) as usize;
    let start = at + 12;
    let end = at + 6 + size;
    &b[start..end]
}

// All records in order, each for 1, then 2: how many there are, or the first refusal.
pub fn count_pieces(b: &[u8]) -> Result<u32, Refusal>
    ensures { meaning result ≡ count_from 1024 b.now 0 0 }
{
    // no count: each record's own length says where the next one starts
    let mut at: usize = 0;
    let mut n: u32 = 0;
    while at < b.len() {
        if record_bad(b, at) {
            return refuse(1, 0, n);
        }
        if MOST_PIECES <= n {
            return refuse(2, 0, n);
        }
        at = next_at(b, at);
        n += 1;
    }
    Ok(n)
}
