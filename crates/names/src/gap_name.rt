// The name of a gap's unit: "`auto_`, two-digit decimal section number, `_`, eight upper-case hexadecimal digits of the address, `_`,
// section name without leading dots".
ghost use Rattle.std.specs.Prelude.{◌≡◌, ◌≤◌, ◌<◌, ◌++◌, length};
ghost use Rattle.std.proofs.lemmas.List.Edits.{sets};
ghost use Rattle.names.specs.Fixed.{codes};
ghost use Rattle.names.specs.GapName.{decimal2, hex8, Written, Dots};

use crate::hex::put_hexes;
use crate::table::put_bytes;
use itoa::write_digits;

// "`auto_`, two-digit decimal section number, `_`": the number's digits end where the two zeros do.
fn put_section(out: &mut [u8], section: u16)
    requires { (8 ≤ length out.old) × (section < 100) }
    ensures { out.new ≡ sets out.old 0 (codes "auto_" ++ decimal2 section ++ codes "_") }
{
    put_bytes(out, 0, b"auto_00_");
    write_digits(u64::from(section), out, 7);
}

// "eight upper-case hexadecimal digits of the address, `_`", from place 8 on
fn put_address(out: &mut [u8], address: u32)
    requires { 17 ≤ length out.old }
    ensures { out.new ≡ sets out.old 8 (hex8 address ++ codes "_") }
{
    put_hexes(out, 8, &address.to_be_bytes());
    out[16] = b'_';
}

// How many dots a name has at its front.
fn leading_dots(name: &[u8]) -> usize
    ensures { Dots name.now result }
{
    name.iter()
        .position(|byte| *byte != b'.')
        .unwrap_or(name.len())
}

// Writes the name of a gap's unit to the front of `out`, and gives its length.
pub fn write_gap_name(out: &mut [u8], section: u16, address: u32, name: &[u8]) -> usize
    requires { (length name.now ≤ 64) × (81 ≤ length out.old) × (section < 100) }
    ensures { Written section address name.now out.old out.new result }
{
    put_section(out, section);
    put_address(out, address);
    let dots = leading_dots(name);
    let rest = &name[dots..];
    put_bytes(out, 17, rest);
    17 + rest.len()
}
