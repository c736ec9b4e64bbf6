// The next record of the unit, from a cursor on: the cursor itself moves there, or to the next kind of record, or to the next unit, or to the total.
ghost use Rattle.std.specs.Prelude.{◌≡◌, ◌<◌};
ghost use Rattle.listing.specs.declared.Cursor.TheVariants.{Units, Pieces, Symbols, Relocs};
ghost use Rattle.listing.specs.Cursor.{piece_is, symbol_is, reloc_is, Before, Valid, Sought, SoughtRelocs, SoughtUnits};
ghost use Rattle.listing.specs.Lent.{listed_pieces, listed_symbols, listed_relocs, piece_on, symbol_on, reloc_on};

use crate::lent::UnitHere;
use crate::reading::piece_of;
use crate::{Cursor, PieceLists};
use obj::record_in;
use pieces::{Piece, PieceReloc, PieceSymbol};

// A relocation is its piece's unit's.
fn reloc_is(here: &UnitHere, k: usize) -> bool
    requires { k < here.now.lists.now.made.relocs }
    ensures { result ≡ reloc_is (listed_pieces here.now.lists.now) here.now.unit (reloc_on here.now.lists.now k) }
{
    let r: PieceReloc = record_in(here.lists.relocs, k);
    let p = piece_of(here.lists, r.piece as usize);
    p.unit == here.unit
}

// The unit, or the total behind the last.
fn seek_unit(units: u16, unit: u16, bytes: u64) -> Cursor
    requires { Before units unit bytes }
    ensures { SoughtUnits units (Units unit bytes) result }
{
    if unit < units {
        return Cursor::Units { unit, bytes };
    }
    Cursor::Total { bytes }
}

// The next relocation of the unit, or what follows it.
fn seek_reloc(here: &UnitHere, at: usize) -> Cursor
    ensures { SoughtRelocs here.now.units (listed_pieces here.now.lists.now) (listed_relocs here.now.lists.now) (Relocs here.now.unit at here.now.bytes) result }
{
    let (unit, bytes) = (here.unit, here.bytes);
    if let Some(at) = (at..here.lists.made.relocs).find(|k| reloc_is(here, *k)) {
        return Cursor::Relocs { unit, at, bytes };
    }
    seek_unit(here.units, here.unit + 1, here.bytes)
}

// The next symbol of the unit; "then `reloc`".
fn seek_symbol(here: &UnitHere, at: usize) -> Cursor
    ensures { Sought here.now.units (listed_pieces here.now.lists.now) (listed_symbols here.now.lists.now) (listed_relocs here.now.lists.now) (Symbols here.now.unit at here.now.bytes) result }
{
    let (unit, bytes) = (here.unit, here.bytes);
    let in_unit = |k: &usize| record_in::<PieceSymbol>(here.lists.symbols, *k).unit == here.unit;
    if let Some(at) = (at..here.lists.made.symbols).find(in_unit) {
        return Cursor::Symbols { unit, at, bytes };
    }
    seek_reloc(here, 0)
}

// The next piece of the unit; "After a unit's pieces come `sym`". As `seek_symbol`, with another cursor and other followers: one function for both would take these as closures.
fn seek_piece(here: &UnitHere, at: usize) -> Cursor
    ensures { Sought here.now.units (listed_pieces here.now.lists.now) (listed_symbols here.now.lists.now) (listed_relocs here.now.lists.now) (Pieces here.now.unit at here.now.bytes) result }
{
    let (unit, bytes) = (here.unit, here.bytes);
    let in_unit = |k: &usize| record_in::<Piece>(here.lists.pieces, *k).unit == here.unit;
    if let Some(at) = (at..here.lists.made.pieces).find(in_unit) {
        return Cursor::Pieces { unit, at, bytes };
    }
    seek_symbol(here, 0)
}

// The cursor at the next record of its unit, at the next unit, or at the total.
// A variant for each kind of record, and not one with the kind in it: `rest` and `Ready` say a case for each, so that an enum of kinds would put a second match into them, here and into `line_at`.
pub fn seek(units: u16, lists: &PieceLists, cursor: Cursor) -> Cursor
    requires { Valid units cursor }
    ensures { Sought units (listed_pieces lists.now) (listed_symbols lists.now) (listed_relocs lists.now) cursor result }
{
    match cursor {
        Cursor::Units { unit, bytes } => seek_unit(units, unit, bytes),
        Cursor::Pieces { unit, at, bytes } => {
            let here = UnitHere {
                lists,
                units,
                unit,
                bytes,
            };
            seek_piece(&here, at)
        }
        Cursor::Symbols { unit, at, bytes } => {
            let here = UnitHere {
                lists,
                units,
                unit,
                bytes,
            };
            seek_symbol(&here, at)
        }
        Cursor::Relocs { unit, at, bytes } => {
            let here = UnitHere {
                lists,
                units,
                unit,
                bytes,
            };
            seek_reloc(&here, at)
        }
        Cursor::Total { bytes } => Cursor::Total { bytes },
        Cursor::Done => Cursor::Done,
    }
}
