// A record's frame, in a file and in the joiner's table of pieces: "A record is a four-byte length of its payload, a two-byte kind, the payload; all little-endian"
// (document 01, "Records and ceilings").
#![tactic(auto)]

ghost use Rattle.std.specs.Prelude.{◌≡◌, ◌+◌, ◌≤◌, length};
ghost use Rattle.frames.specs.Frames.{is_cut, next_at};

use fields::Field;

// "file cut": in the head of the record at `at`, or in its payload.
#[inline(always)]
pub fn is_cut(b: &[u8], at: usize) -> bool
    requires { at ≤ length b.now }
    ensures { result ≡ is_cut b.now at }
{
    let left = b.len() - at;
    if left < 6 {
        return true;
    }
    left - 6 < (u32::get(b, at) as usize)
}

// Where the record after one that isn't cut starts.
#[inline(always)]
pub fn next_at(b: &[u8], at: usize) -> usize
    requires { (at + 6 ≤ length b.now) × (next_at b.now at ≤ length b.now) }
    ensures { result ≡ next_at b.now at }
{
    at + 6 + (u32::get(b, at) as usize)
}
