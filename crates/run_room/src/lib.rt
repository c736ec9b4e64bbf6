// What the ceilings leave for the names that a run adds to those of its file: "4,096 names of 65,535 bytes in all", and no more than is lent for them.
#![tactic(auto)]

ghost use Rattle.std.specs.Prelude.{◌≡◌, ◌-◌, ◌≤◌, length};
ghost use Rattle.lists.specs.Bounds.{lower as lowerOf};
ghost use Rattle.run_room.specs.Room.{sum};

use std::cmp::min;

// How many bytes the names have in all.
fn bytes_of(lengths: &[u8]) -> usize
    requires { length lengths.now ≤ 4096 }
    ensures { result ≡ sum lengths.now }
{
    let mut bytes: usize = 0;
    for length in lengths {
        bytes += usize::from(*length);
    }
    bytes
}

// How many names may be added to those that are `there`, where `most` are lent a place.
pub fn names_room(there: usize, most: usize) -> usize
    ensures { result ≡ lowerOf (4096 - there) most }
{
    min(4096_usize.saturating_sub(there), most)
}

// How many bytes these may have, beside the names of these lengths.
pub fn bytes_room(lengths: &[u8], most: usize) -> usize
    requires { length lengths.now ≤ 4096 }
    ensures { result ≡ lowerOf (65535 - sum lengths.now) most }
{
    min(65535_usize.saturating_sub(bytes_of(lengths)), most)
}
