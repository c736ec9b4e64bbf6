// Numbers as text: decimal digits, with a sign where they are negative, and eight hexadecimal ones. Each is followed by a byte that ends the field.
ghost use Rattle.std.specs.Prelude.{◌≡◌, ◌+◌, ◌≤◌, ◌++◌, ◌∷◌, [], length};
ghost use Rattle.names.specs.GapName.{hex8};
ghost use Rattle.lines.specs.Lines.{decimal, signed_decimal, Adds};

use crate::Text;
use itoa::write_digits;
use names::put_hexes;

impl Text<'_> {
    // "the rest is decimal"
    pub fn put_decimal(&mut self, n: u64, after: u8)
        requires { self.old.at + 21 ≤ length self.old.bytes.now }
        ensures { Adds self.old self.new (decimal n ++ (after ∷ [])) }
    {
        let mut column = [0u8; 20];
        let first = write_digits(n, &mut column, 20);
        self.put_ended(&column[first..], after);
    }

    // An addend may be negative.
    pub fn put_signed(&mut self, v: i64, after: u8)
        requires { self.old.at + 22 ≤ length self.old.bytes.now }
        ensures { Adds self.old self.new (signed_decimal v ++ (after ∷ [])) }
    {
        let n = v.unsigned_abs();
        if v < 0 {
            self.bytes[self.at] = b'-';
            self.at += 1;
            self.put_decimal(n, after);
            return;
        }
        self.put_decimal(n, after);
    }

    // "eight upper-case hexadecimal digits"
    pub fn put_hex8(&mut self, v: u32, after: u8)
        requires { self.old.at + 9 ≤ length self.old.bytes.now }
        ensures { Adds self.old self.new (hex8 v ++ (after ∷ [])) }
    {
        let mut digits = [0u8; 8];
        put_hexes(&mut digits, 0, &v.to_be_bytes());
        self.put_ended(&digits, after);
    }
}
