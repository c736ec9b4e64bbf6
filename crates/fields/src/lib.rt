// Numbers read from and written to bytes, little-endian (document 01, "Records and ceilings": "all little-endian").
#![tactic(auto)]

ghost use Rattle.std.specs.Prelude.{ℕ, List, [], ◌∷◌, ◌≡◌, ◌+◌, ◌≤◌, ◌<◌, length, get_or};
ghost use Rattle.std.proofs.lemmas.List.Edits.{sets};
ghost use Rattle.fields.specs.Fields.{le16, le32, le64, enc16, enc32, enc64, signed32, signed64, word32, word64};

// A number as a field of a record: how many bytes it has, which one stands at a place of lent bytes, and the bytes that it is stored as.
pub trait Field: Sized {
    ghost WIDTH: { ℕ };

    ghost stored: { List ℕ → ℕ → Self };

    ghost bytes: { Self → List ℕ };

    fn get(s: &[u8], at: usize) -> Self
        requires { at + WIDTH ≤ length s.now }
        ensures { result ≡ stored s.now at };

    fn put(self, b: &mut [u8], at: usize)
        requires { at + WIDTH ≤ length b.old }
        ensures { b.new ≡ sets b.old at (bytes self) };
}

impl Field for u8 {
    ghost WIDTH = { 1 };

    ghost stored = { λ s at. get_or s at 0 };

    ghost bytes = { λ v. v ∷ [] };

    fn get(s: &[u8], at: usize) -> u8 {
        s[at]
    }

    fn put(self, b: &mut [u8], at: usize) {
        b[at] = self;
    }
}

impl Field for u16 {
    ghost WIDTH = { 2 };

    ghost stored = { le16 };

    ghost bytes = { enc16 };

    fn get(s: &[u8], at: usize) -> u16 {
        u16::from_le_bytes([s[at], s[at + 1]])
    }

    fn put(self, b: &mut [u8], at: usize) {
        b[at..at + 2].copy_from_slice(&self.to_le_bytes());
    }
}

impl Field for u32 {
    ghost WIDTH = { 4 };

    ghost stored = { le32 };

    ghost bytes = { enc32 };

    fn get(s: &[u8], at: usize) -> u32 {
        u32::from_le_bytes([s[at], s[at + 1], s[at + 2], s[at + 3]])
    }

    fn put(self, b: &mut [u8], at: usize) {
        b[at..at + 4].copy_from_slice(&self.to_le_bytes());
    }
}

impl Field for u64 {
    ghost WIDTH = { 8 };

    ghost stored = { le64 };

    ghost bytes = { enc64 };

    fn get(s: &[u8], at: usize) -> u64 {
        u64::from_le_bytes([
            s[at],
            s[at + 1],
            s[at + 2],
            s[at + 3],
            s[at + 4],
            s[at + 5],
            s[at + 6],
            s[at + 7],
        ])
    }

    fn put(self, b: &mut [u8], at: usize) {
        b[at..at + 8].copy_from_slice(&self.to_le_bytes());
    }
}

// A signed number is stored as its word in two's complement.
impl Field for i32 {
    ghost WIDTH = { 4 };

    ghost stored = { λ s at. signed32 (le32 s at) };

    ghost bytes = { λ v. enc32 (word32 v) };

    fn get(s: &[u8], at: usize) -> i32 {
        u32::get(s, at).cast_signed()
    }

    fn put(self, b: &mut [u8], at: usize) {
        self.cast_unsigned().put(b, at);
    }
}

impl Field for i64 {
    ghost WIDTH = { 8 };

    ghost stored = { λ s at. signed64 (le64 s at) };

    ghost bytes = { λ v. enc64 (word64 v) };

    fn get(s: &[u8], at: usize) -> i64 {
        u64::get(s, at).cast_signed()
    }

    fn put(self, b: &mut [u8], at: usize) {
        self.cast_unsigned().put(b, at);
    }
}

// Element i of a column of 16-bit numbers, as the place or the count that it is.
pub fn number(column: &[u16], i: usize) -> usize
    requires { i < length column.now }
    ensures { result ≡ get_or column.now i 0 }
{
    usize::from(column[i])
}
