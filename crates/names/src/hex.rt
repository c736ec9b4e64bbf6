// Hexadecimal digits, upper case, stored by hand: std's `Write for &mut [u8]` does not say which bytes it wrote, and of the kit's `hex`, what writes into a slice gives lower-case
// digits and what gives upper-case ones needs a heap.
ghost use Rattle.std.specs.Prelude.{◌≡◌, [], ◌∷◌, ◌+◌, ◌*◌, ◌≤◌, ◌<◌, length};
ghost use Rattle.std.proofs.lemmas.List.Edits.{sets};
ghost use Rattle.names.specs.GapName.{digit, hexes};

// A digit, 0 to 9 and A to F.
pub fn digit_of(d: u64) -> u8
    requires { d < 16 }
    ensures { result ≡ digit d }
{
    if d < 10 {
        return (48 + d) as u8;
    }
    (55 + d) as u8
}

// A byte's two digits.
fn put_hex(out: &mut [u8], at: usize, b: u8)
    requires { at + 2 ≤ length out.old }
    ensures { out.new ≡ sets out.old at (hexes (b ∷ [])) }
{
    out[at] = digit_of(u64::from(b / 16));
    out[at + 1] = digit_of(u64::from(b % 16));
}

// The digits of all bytes, two for each.
pub fn put_hexes(out: &mut [u8], at: usize, bytes: &[u8])
    requires { at + 2 * length bytes.now ≤ length out.old }
    ensures { out.new ≡ sets out.old at (hexes bytes.now) }
{
    for (i, byte) in bytes.iter().enumerate() {
        put_hex(out, at + 2 * i, *byte);
    }
}
