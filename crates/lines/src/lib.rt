// The lines of the listing, each written into a small lent buffer: no buffer holds the whole listing.
// A text says how far it is written, so that each field goes behind the one before. Each line says that its buffer has 208 bytes and its name no more than 128, and from
// the lengths of the texts before a field follows that there is room for it.
#![tactic(auto, using(crate::proofs::Puts::fields), unfolding(names::specs::Fixed::codes))]

mod numbers;

ghost use Rattle.std.specs.Prelude.{◌≡◌, cond, ◌+◌, ◌≤◌, ◌++◌, ◌∷◌, [], length};
ghost use Rattle.names.specs.Fixed.{codes};
ghost use Rattle.lines.specs.Lines.{shown, owner_of, unit_line, piece_line, sym_line, reloc_line, total_line, refused_line, Adds, Written};

use names::put_bytes;
use obj::{Refusal, Reloc};
use pieces::Piece;

// What ends a field, and what ends a line.
pub const SPACE: u8 = b' ';

pub const NEWLINE: u8 = b'\n';

// A lent buffer, of which the bytes up to `at` are written.
#[derive(Drop)]
pub struct Text<'b> {
    pub bytes: &'b mut [u8],
    pub at: usize,
}

impl Text<'_> {
    // The field and the byte that ends it.
    fn put_ended(&mut self, field: &[u8], after: u8)
        requires { self.old.at + length field.now + 1 ≤ length self.old.bytes.now }
        ensures { Adds self.old self.new (field.now ++ (after ∷ [])) }
    {
        let end = self.at + field.len();
        put_bytes(self.bytes, self.at, field);
        self.bytes[end] = after;
        self.at = end + 1;
    }

    // The field and a space.
    fn put_field(&mut self, field: &[u8])
        requires { self.old.at + length field.now + 1 ≤ length self.old.bytes.now }
        ensures { Adds self.old self.new (field.now ++ (32 ∷ [])) }
    {
        self.put_ended(field, SPACE);
    }

    // "name (`-` if empty)"
    fn put_shown(&mut self, name: &[u8])
        requires { self.old.at + length name.now + 2 ≤ length self.old.bytes.now }
        ensures { Adds self.old self.new (shown name.now ++ (32 ∷ [])) }
    {
        if name.is_empty() {
            self.put_field(b"-");
            return;
        }
        self.put_field(name);
    }

    // "piece or `common`", and a space: a piece's number in its unit, where a piece has the symbol.
    fn put_owner(&mut self, owner: Option<u16>)
        requires { self.old.at + 21 ≤ length self.old.bytes.now }
        ensures { Adds self.old self.new (owner_of owner ++ (32 ∷ [])) }
    {
        match owner {
            None => self.put_field(b"common"),
            Some(number) => self.put_decimal(number as u64, SPACE),
        }
    }
}

// "Unit: number, name, sum of its piece sizes."
pub fn write_unit(out: &mut [u8], number: u16, name: &[u8], size: u64) -> usize
    requires { (208 ≤ length out.old) × (length name.now ≤ 128) }
    ensures { Written out.old out.new (unit_line number name.now size) result }
{
    let mut text = Text { bytes: out, at: 0 };
    text.put_field(b"unit");
    text.put_decimal(number as u64, SPACE);
    text.put_field(name);
    text.put_decimal(size, NEWLINE);
    text.at
}

// "Piece: number in its unit, name, address, size, alignment.", then its split's origin.
pub fn write_piece(out: &mut [u8], piece: &Piece, name: &[u8]) -> usize
    requires { (208 ≤ length out.old) × (length name.now ≤ 128) }
    ensures { Written out.old out.new
        (piece_line piece.now.number name.now piece.now.address piece.now.size piece.now.alignment piece.now.origin) result }
{
    let mut text = Text { bytes: out, at: 0 };
    text.put_field(b"piece");
    text.put_decimal(piece.number as u64, SPACE);
    text.put_field(name);
    text.put_hex8(piece.address, SPACE);
    text.put_decimal(piece.size as u64, SPACE);
    text.put_decimal(piece.alignment as u64, SPACE);
    text.put_decimal(piece.origin as u64, NEWLINE);
    text.at
}

// "`sym` name (`-` if empty), piece or `common`, address, size"
pub fn write_symbol(
    out: &mut [u8],
    name: &[u8],
    owner: Option<u16>,
    address: u32,
    size: u32,
) -> usize
    requires { (208 ≤ length out.old) × (length name.now ≤ 128) }
    ensures { Written out.old out.new (sym_line name.now owner address size) result }
{
    let mut text = Text { bytes: out, at: 0 };
    text.put_field(b"sym");
    text.put_shown(name);
    text.put_owner(owner);
    text.put_hex8(address, SPACE);
    text.put_decimal(size as u64, NEWLINE);
    text.at
}

// "`reloc` piece, offset, kind, target, addend"
pub fn write_reloc(out: &mut [u8], number: u16, offset: u32, reloc: &Reloc) -> usize
    requires { 208 ≤ length out.old }
    ensures { Written out.old out.new (reloc_line number offset reloc.now.kind reloc.now.target reloc.now.addend) result }
{
    let mut text = Text { bytes: out, at: 0 };
    text.put_field(b"reloc");
    text.put_decimal(number as u64, SPACE);
    text.put_hex8(offset, SPACE);
    text.put_decimal(reloc.kind as u64, SPACE);
    text.put_decimal(reloc.target as u64, SPACE);
    text.put_signed(reloc.addend, NEWLINE);
    text.at
}

// "Total: units, pieces, bytes."
pub fn write_total(out: &mut [u8], units: u16, pieces: u16, bytes: u64) -> usize
    requires { 208 ≤ length out.old }
    ensures { Written out.old out.new (total_line units pieces bytes) result }
{
    let mut text = Text { bytes: out, at: 0 };
    text.put_field(b"total");
    text.put_decimal(units as u64, SPACE);
    text.put_decimal(pieces as u64, SPACE);
    text.put_decimal(bytes, NEWLINE);
    text.at
}

// "A refusal prints only `refused`, number, section, address."
// As `write_total`, another of document 01's lines, of other fields.
pub fn write_refused(out: &mut [u8], r: Refusal) -> usize
    requires { 208 ≤ length out.old }
    ensures { Written out.old out.new (refused_line r.number r.section r.address) result }
{
    let mut text = Text { bytes: out, at: 0 };
    text.put_field(b"refused");
    text.put_decimal(r.number as u64, SPACE);
    text.put_decimal(r.section as u64, SPACE);
    text.put_hex8(r.address, NEWLINE);
    text.at
}
