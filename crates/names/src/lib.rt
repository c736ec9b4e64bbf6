// Names in lent bytes: comparing them, the fixed ones, finding a name's number, the name of a gap's unit, and appending a name.
#![tactic(auto)]

mod fixed;
mod gap_name;
mod hex;
mod index;
mod table;

ghost use Rattle.std.specs.Prelude.{◌≡◌, ◌+◌, ◌≤◌, ◌<◌, length, get_or};
ghost use Rattle.names.specs.Names.{name_at, same_name, name_bad};

pub use fixed::{
    is_bss, is_four_aligned, is_linker_generated_label, is_linker_generated_object,
    is_pointer_list, is_vector_table_end,
};
pub use gap_name::write_gap_name;
pub use hex::{digit_of, put_hexes};
pub use index::{bucket_of, clear_heads, enter, find, find_by};
pub use table::{append, put_bytes};

// Names: name k has `lengths[k]` bytes from `places[k]` on.
#[derive(Clone, Copy)]
pub struct Names<'b, 'p, 'l> {
    pub bytes: &'b [u8],
    pub places: &'p [u32],
    pub lengths: &'l [u8],
}

// An index of names by their bytes: the first of each bucket, and the one after each.
#[derive(Clone, Copy)]
pub struct NameIndex<'h, 'c> {
    pub heads: &'h [u16],
    pub chain: &'c [u16],
}

// How many names, of how many bytes in all, have a place.
#[derive(Clone, Copy)]
pub struct Room {
    pub names: usize,
    pub bytes: usize,
}

// The same bytes.
pub fn same(x: &[u8], y: &[u8]) -> bool
    ensures { result ≡ same_name x.now y.now }
{
    x == y
}

// Name k: the part of the bytes where it lies.
pub fn name_at<'a>(names: &Names<'a, '_, '_>, k: usize) -> &'a [u8]
    requires { (k < length names.now.places.now) × (k < length names.now.lengths.now) × (get_or names.now.places.now k 0 + get_or names.now.lengths.now k 0 ≤ length names.now.bytes.now) }
    ensures { result.now ≡ name_at names.now.bytes.now names.now.places.now names.now.lengths.now k }
{
    let start = names.places[k] as usize;
    let end = start + usize::from(names.lengths[k]);
    &names.bytes[start..end]
}

// "3 name byte or length": "a name 1 to 128 bytes .. a symbol's also empty".
pub fn bad_name(name: &[u8]) -> bool
    ensures { result ≡ name_bad name.now }
{
    128 < name.len() || name.iter().any(|byte| *byte < 33 || 126 < *byte)
}
