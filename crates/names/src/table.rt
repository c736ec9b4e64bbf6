// Appending to a name table: "28 name table full"; "4,096 names of 65,535 bytes in all"; "A shorter lent output table has its own
// length as ceiling".
ghost use Rattle.std.specs.Prelude.{◌≡◌, ◌+◌, ◌≤◌, length};
ghost use Rattle.std.proofs.lemmas.List.Edits.{sets};
ghost use Rattle.names.specs.Append.{Packed, Appended};

use crate::Room;

// Stores the bytes of `from` from place `at` on.
pub fn put_bytes(out: &mut [u8], at: usize, from: &[u8])
    requires { at + length from.now ≤ length out.old }
    ensures { out.new ≡ sets out.old at from.now }
{
    // byte by byte: `copy_from_slice` calls `memmove`, which the archive for C would need from outside
    for (i, byte) in from.iter().enumerate() {
        out[at + i] = *byte;
    }
}

// Appends the name as number n, its bytes from `used` on, unless the table is full; says whether it did. As a method of `gap_splits::AddedNames`, whose columns these are,
// it would ask that they hold all names that may be added (`Stand`), and a struct of what it asks (`Packed`) would have to be made for each name.
pub fn append(
    bytes: &mut [u8],
    used: usize,
    places: &mut [u32],
    lengths: &mut [u8],
    n: usize,
    name: &[u8],
    most: Room,
) -> bool
    requires { (length name.now ≤ 128) × (used ≤ 65535) × (n ≤ 4096) × Packed bytes.old places.old lengths.old n used }
    ensures { Appended
        (record { bytes = bytes.entry.now; places = places.old; lengths = lengths.old })
        (record { bytes = bytes.exit.now; places = places.new; lengths = lengths.new })
        used n name.now most.names most.bytes result }
{
    let end = used + name.len();
    if (most.names <= n)
        | (places.len() <= n)
        | (lengths.len() <= n)
        | (most.bytes < end)
        | (bytes.len() < end)
    {
        return false;
    }
    put_bytes(bytes, used, name);
    places[n] = used as u32;
    lengths[n] = name.len() as u8;
    true
}
