// Numbers read from bytes, the most significant byte first, as an ELF file of ELFDATA2MSB has them.
#![tactic(auto)]

ghost use Rattle.std.specs.Prelude.{◌≡◌, ◌+◌, ◌≤◌, List, ℕ, length};
ghost use Rattle.big_endian.specs.BigEndian.{be16, be32};

use fields::Field;

// A number as a field of such a file: as wide as in a record, and which one stands at a place of lent bytes.
pub trait BigField: Field {
    ghost stored_be: { List ℕ → ℕ → Self };

    fn get_be(s: &[u8], at: usize) -> Self
        requires { at + Self.WIDTH ≤ length s.now }
        ensures { result ≡ stored_be s.now at };
}

impl BigField for u16 {
    ghost stored_be = { be16 };

    fn get_be(s: &[u8], at: usize) -> u16 {
        u16::from_be_bytes([s[at], s[at + 1]])
    }
}

impl BigField for u32 {
    ghost stored_be = { be32 };

    fn get_be(s: &[u8], at: usize) -> u32 {
        u32::from_be_bytes([s[at], s[at + 1], s[at + 2], s[at + 3]])
    }
}
