// The symbols and relocations of a split, as entries behind those that are there.
ghost use Rattle.std.specs.Prelude.{◌≡◌, cond, eqb, ◌+◌, ◌*◌, ◌/◌, ◌%◌, ◌<◌, ◌≤◌, length};
ghost use Rattle.obj.specs.Records.{Held};
ghost use Rattle.names.specs.Fixed.{is_vector_table_end};
ghost use Rattle.symbol_order.specs.Order.{symbol_of};
ghost use Rattle.sections.specs.Image.{image_of, SymbolNames};
ghost use Rattle.pieces.specs.Tables.{symbols_of, relocs_of};
ghost use Rattle.pieces.specs.Questions.{has};
ghost use Rattle.piece_columns.specs.Columns.{lasts_in, ChainedIn};
ghost use Rattle.relocs.specs.Relocs.{reloc_of, Readable};
ghost use Rattle.walk.specs.Walk.{passed_over, entry_of, add_symbol, add_symbols, reloc_entry, add_relocs};
ghost use Rattle.walk.specs.Adding.{Entries, Lying, Adds, Above, AddsRelocs};

use crate::Full;
use names::{Names, is_linker_generated_label, is_vector_table_end, name_at};
use obj::{Reloc, Split, Symbol, Table};
use piece_columns::{has_symbol, push_symbol};
use pieces::{PieceReloc, PieceSymbol, PieceTables};

// "bit 0 Local, 1 Common, 2 Stripped"
const COMMON_SYMBOL: u16 = 2;

// The piece of an entry that has none
const NO_PIECE: u16 = 65535;

// "one at the end is passed over, `gTRKInterruptVectorTableEnd` at the start instead": where a symbol of this name is passed over.
fn passed_at(name: &[u8], s: Split) -> u32
    ensures { result ≡ cond (is_vector_table_end name.now) s.start s.end }
{
    if is_vector_table_end(name) {
        return s.start;
    }
    s.end
}

// "without linker labels; one at the end is passed over, .."
fn is_passed_over(name: &[u8], s: Split, y: Symbol) -> bool
    ensures { result ≡ passed_over name.now s y }
{
    is_linker_generated_label(name) | (y.address == passed_at(name, s))
}

// "their alignment (else 4)"
fn common_address(alignment: u32) -> u32
    ensures { result ≡ cond (eqb alignment 0) 4 alignment }
{
    if alignment == 0 {
        return 4;
    }
    alignment
}

// "only the flags of `keep_flags` plus Common": those from Stripped on in the low byte, and Common.
fn common_flags(flags: u16) -> u16
    ensures { result ≡ flags % 256 / 4 * 4 + 2 }
{
    flags % 256 / 4 * 4 + COMMON_SYMBOL
}

// The entry of symbol i: "its symbols take their alignment (else 4) as address, and only the flags of `keep_flags` plus Common".
fn entry_of(unit: u16, place: u16, s: Split, i: u16, y: Symbol) -> PieceSymbol
    requires { s.start ≤ y.address }
    ensures { result ≡ entry_of unit place s i y }
{
    if s.is_common() {
        return PieceSymbol {
            unit: unit,
            piece: NO_PIECE,
            symbol: i,
            flags: common_flags(y.flags),
            address: common_address(y.alignment),
        };
    }
    PieceSymbol {
        unit: unit,
        piece: place,
        symbol: i,
        flags: y.flags,
        address: y.address - s.start,
    }
}

// Whether one of the entries that are there is symbol i of the unit. A function of its own: read in a call by what writes the tables, the entries would be lent anew.
fn is_entered(chains: &[u16], tables: &PieceTables, unit: u16, i: usize) -> bool
    requires { (i < length (lasts_in chains.now)) × ChainedIn chains.now tables.now }
    ensures { result ≡ has unit i (symbols_of tables.now) }
{
    has_symbol(chains, tables.symbols, unit, i)
}

// Symbol i of a split, "each once per unit", behind the entries that are there, if there is room for it.
fn add_symbol(
    symbols: &Table,
    names: &Names,
    s: Split,
    unit: u16,
    i: usize,
    chains: &mut [u16],
    tables: &mut PieceTables,
) -> Result<(), Full>
    requires { Held 20 symbols.now.bytes.now symbols.now.places.now i
        × SymbolNames symbols.now.bytes.now symbols.now.places.now names.now.bytes.now names.now.places.now names.now.lengths.now
        × (s.start ≤ (symbol_of symbols.now.bytes.now symbols.now.places.now i).address)
        × Entries (length symbols.now.places.now) chains.old tables.old }
    ensures { Adds (add_symbol (image_of symbols.now.bytes.now symbols.now.places.now names.now.bytes.now names.now.places.now names.now.lengths.now) unit tables.old.made.pieces s (symbols_of tables.old) i) chains.new tables.old tables.new result }
{
    let y = symbols.record::<Symbol>(i);
    let name = name_at(names, y.name as usize);
    if is_passed_over(name, s, y) | is_entered(chains, tables, unit, i) {
        return Ok(());
    }
    if tables.made.symbols == tables.room.symbols {
        return Err(Full);
    }
    let place = tables.made.pieces as u16;
    push_symbol(chains, tables, entry_of(unit, place, s, i as u16, y));
    Ok(())
}

// The symbols of a split, whose numbers are `part`, behind the entries that are there, if there is room for them.
pub fn add_symbols(
    symbols: &Table,
    names: &Names,
    part: &[u16],
    s: Split,
    unit: u16,
    chains: &mut [u16],
    tables: &mut PieceTables,
) -> Result<(), Full>
    requires { Lying symbols.now.bytes.now symbols.now.places.now part.now s.start
        × SymbolNames symbols.now.bytes.now symbols.now.places.now names.now.bytes.now names.now.places.now names.now.lengths.now
        × Entries (length symbols.now.places.now) chains.old tables.old }
    ensures { Adds (add_symbols (image_of symbols.now.bytes.now symbols.now.places.now names.now.bytes.now names.now.places.now names.now.lengths.now) unit tables.old.made.pieces s (symbols_of tables.old) part.now) chains.new tables.old tables.new result }
{
    for i in part {
        add_symbol(symbols, names, s, unit, usize::from(*i), chains, tables)?;
    }
    Ok(())
}

// The relocations of the next piece, which starts at `start`; `part` are their numbers: "Relocation offsets in a piece are rounded down to fours."
pub fn add_relocs(relocs: &Table, part: &[u16], start: u32, tables: &mut PieceTables)
    requires { Above relocs.now.bytes.now relocs.now.places.now part.now start × (tables.old.made.relocs + length part.now ≤ tables.old.room.relocs) × (tables.old.made.pieces < 65536) }
    ensures { AddsRelocs (add_relocs (reloc_of relocs.now.bytes.now relocs.now.places.now) tables.old.made.pieces start (relocs_of tables.old) part.now) (length part.now) tables.old tables.new }
{
    let place = tables.made.pieces as u16;
    for i in part {
        let r = relocs.record::<Reloc>(usize::from(*i));
        tables.add_reloc(PieceReloc {
            piece: place,
            relocation: *i,
            offset: (r.address - start) / 4 * 4,
        });
    }
}
