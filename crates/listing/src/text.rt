// The text of a unit's line, of a piece's, of a symbol's, of a relocation's. `out` is any lent buffer of 208 bytes or more: next_line asks no more of its callers.
// Tables, a record's number and the buffer stay apart: a struct of them would be made for one line, and the buffer, which is written, can't be lent by `&` with the tables.
ghost use Rattle.std.specs.Prelude.{ℕ, ◌*◌, ◌≤◌, ◌<◌, length, get_or};
ghost use Rattle.obj.specs.Records.{unit_at};
ghost use Rattle.lines.specs.Lines.{unit_line, Written};
ghost use Rattle.listing.specs.Cursor.{piece_text, symbol_text, reloc_text};
ghost use Rattle.listing.specs.Tables.{name_in};
ghost use Rattle.listing.specs.Lent.{listed_pieces, piece_on, symbol_on, reloc_on, symbol_of, reloc_of, columns_of};

use crate::ListedTables;
use crate::reading::{name_of, owner_of, piece_of};
use lines::{write_piece, write_reloc, write_symbol, write_unit};
use obj::{Reloc, Symbol, Unit, record_in};
use pieces::{Piece, PieceReloc, PieceSymbol};

// "Unit: number, name", and its figure.
pub fn unit_line(tables: &ListedTables, unit: u16, size: u64, out: &mut [u8]) -> usize
    requires { (unit < length tables.now.units.now.places.now) × (208 ≤ length out.old) }
    ensures { Written out.old out.new
        (unit_line unit (name_in (columns_of tables.now.base.now) (columns_of tables.now.added.now) (unit_at tables.now.units.now.bytes.now (get_or tables.now.units.now.places.now unit 0)).name) size) result }
{
    let u = tables.units.record::<Unit>(unit as usize);
    let name = name_of(tables, u.name as usize);
    write_unit(out, unit, name, size)
}

// "Piece: number in its unit, name, address, size, alignment."
pub fn piece_line(tables: &ListedTables, at: usize, out: &mut [u8]) -> usize
    requires { (at < tables.now.lists.now.made.pieces) × (208 ≤ length out.old) }
    ensures { Written out.old out.new
        (piece_text (name_in (columns_of tables.now.base.now) (columns_of tables.now.added.now)) (piece_on tables.now.lists.now at)) result }
{
    let p: Piece = record_in(tables.lists.pieces, at);
    let name = name_of(tables, p.name as usize);
    write_piece(out, &p, name)
}

// "`sym` name (`-` if empty), piece or `common`, address, size"
pub fn symbol_line(tables: &ListedTables, at: usize, out: &mut [u8]) -> usize
    requires { (at < tables.now.lists.now.made.symbols) × (208 ≤ length out.old) }
    ensures { Written out.old out.new
        (symbol_text (name_in (columns_of tables.now.base.now) (columns_of tables.now.added.now)) (symbol_of tables.now.symbols.now) (listed_pieces tables.now.lists.now) (symbol_on tables.now.lists.now at)) result }
{
    let y: PieceSymbol = record_in(tables.lists.symbols, at);
    let s = tables.symbols.record::<Symbol>(y.symbol as usize);
    let owner = owner_of(tables.lists, y.piece);
    let name = name_of(tables, s.name as usize);
    write_symbol(out, name, owner, y.address, s.size)
}

// "`reloc` piece, offset, kind, target, addend"
pub fn reloc_line(tables: &ListedTables, at: usize, out: &mut [u8]) -> usize
    requires { (at < tables.now.lists.now.made.relocs) × (208 ≤ length out.old) }
    ensures { Written out.old out.new
        (reloc_text (reloc_of tables.now.relocs.now) (listed_pieces tables.now.lists.now) (reloc_on tables.now.lists.now at)) result }
{
    let r: PieceReloc = record_in(tables.lists.relocs, at);
    let p = piece_of(tables.lists, r.piece as usize);
    let i = tables.relocs.record::<Reloc>(r.relocation as usize);
    write_reloc(out, p.number, r.offset, &i)
}
