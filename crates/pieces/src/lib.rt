// What the walk gives: pieces, their symbols and their relocations, as records of lent tables, and a piece's bytes.
// A piece symbol's and a piece relocation's other fields are those of the image's record of that number.
#![tactic(auto)]

mod lent;

ghost use Rattle.std.specs.Prelude.{◌≡◌, ◌-◌, ◌<◌, take, drop};
ghost use Rattle.pieces.specs.Pieces.{piece_width, piece_at, symbol_at, reloc_at, piece_bytes, symbol_bytes, reloc_bytes};
ghost use Rattle.pieces.specs.Laws.{length-piece_bytes, length-symbol_bytes, length-reloc_bytes, piece_same, symbol_same, reloc_same};

use fields::Field;
pub use lent::PieceTables;
use obj::{Record, Written, put_record};

#[derive(Clone, Copy, Default)]
pub struct Piece {
    pub unit: u16,
    pub number: u16,
    pub section: u16,
    pub name: u16,
    pub address: u32,
    pub size: u32,
    pub alignment: u32,
    pub offset: u64,
    pub origin: u16,
}

#[derive(Clone, Copy)]
pub struct PieceSymbol {
    pub unit: u16,
    pub piece: u16,
    pub symbol: u16,
    pub flags: u16,
    pub address: u32,
}

#[derive(Clone, Copy)]
pub struct PieceReloc {
    pub piece: u16,
    pub relocation: u16,
    pub offset: u32,
}

// So many pieces, piece symbols and piece relocations.
#[derive(Clone, Copy, Default)]
pub struct Counts {
    pub pieces: usize,
    pub symbols: usize,
    pub relocs: usize,
}

// Bytes of a piece's record.
pub const PIECE_BYTES: usize = 30;

// ---- records read

// A table of the output is packed: record k stands k widths from its start.
impl Record for Piece {
    ghost WIDTH = { piece_width };

    const WIDTH: usize = PIECE_BYTES;

    ghost stored = { piece_at };

    #[tactic(auto, unfolding(crate::specs::Pieces::piece_at))]
    fn read(b: &[u8], at: usize) -> Piece {
        Piece {
            unit: u16::get(b, at),
            number: u16::get(b, at + 2),
            section: u16::get(b, at + 4),
            name: u16::get(b, at + 6),
            address: u32::get(b, at + 8),
            size: u32::get(b, at + 12),
            alignment: u32::get(b, at + 16),
            offset: u64::get(b, at + 20),
            origin: u16::get(b, at + 28),
        }
    }
}

impl Record for PieceSymbol {
    ghost WIDTH = { 12 };

    const WIDTH: usize = 12;

    ghost stored = { symbol_at };

    #[tactic(auto, unfolding(crate::specs::Pieces::symbol_at))]
    fn read(b: &[u8], at: usize) -> PieceSymbol {
        PieceSymbol {
            unit: u16::get(b, at),
            piece: u16::get(b, at + 2),
            symbol: u16::get(b, at + 4),
            flags: u16::get(b, at + 6),
            address: u32::get(b, at + 8),
        }
    }
}

impl Record for PieceReloc {
    ghost WIDTH = { 8 };

    const WIDTH: usize = 8;

    ghost stored = { reloc_at };

    #[tactic(auto, unfolding(crate::specs::Pieces::reloc_at))]
    fn read(b: &[u8], at: usize) -> PieceReloc {
        PieceReloc {
            piece: u16::get(b, at),
            relocation: u16::get(b, at + 2),
            offset: u32::get(b, at + 4),
        }
    }
}

// ---- records written

impl Written for Piece {
    ghost bytes = { piece_bytes };

    ghost long = { length-piece_bytes };

    ghost same = { piece_same };

    fn write(self, out: &mut [u8], at: usize) {
        self.unit.put(out, at);
        self.number.put(out, at + 2);
        self.section.put(out, at + 4);
        self.name.put(out, at + 6);
        self.address.put(out, at + 8);
        self.size.put(out, at + 12);
        self.alignment.put(out, at + 16);
        self.offset.put(out, at + 20);
        self.origin.put(out, at + 28);
    }
}

impl Written for PieceSymbol {
    ghost bytes = { symbol_bytes };

    ghost long = { length-symbol_bytes };

    ghost same = { symbol_same };

    fn write(self, out: &mut [u8], at: usize) {
        self.unit.put(out, at);
        self.piece.put(out, at + 2);
        self.symbol.put(out, at + 4);
        self.flags.put(out, at + 6);
        self.address.put(out, at + 8);
    }
}

impl Written for PieceReloc {
    ghost bytes = { reloc_bytes };

    ghost long = { length-reloc_bytes };

    ghost same = { reloc_same };

    fn write(self, out: &mut [u8], at: usize) {
        self.piece.put(out, at);
        self.relocation.put(out, at + 2);
        self.offset.put(out, at + 4);
    }
}

impl PieceTables<'_, '_, '_> {
    ghost use Rattle.pieces.specs.Tables.{AddedReloc};

    // One piece relocation more, behind those that are there. Pieces and piece symbols have columns beside them: `piece_columns` puts these.
    pub fn add_reloc(&mut self, r: PieceReloc)
        requires { self.old.made.relocs < self.old.room.relocs }
        ensures { AddedReloc self.old self.new r }
    {
        put_record(self.relocs, self.made.relocs, r);
        self.made.relocs += 1;
    }
}

// ---- bytes

// "A piece's bytes are a returned part of the section's bytes, no copy": those in from..to, counted from the section's start, as far as there are any.
pub fn piece_bytes(section_bytes: &[u8], from: usize, to: usize) -> &[u8]
    ensures { result.now ≡ take (to - from) (drop from section_bytes.now) }
{
    let end = to.min(section_bytes.len());
    if end <= from {
        return &[];
    }
    &section_bytes[from..end]
}
