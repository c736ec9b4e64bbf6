// The listing of a run, a line at a time: each line goes into a small lent buffer, and a cursor says where the next begins. No buffer holds the whole listing.
#![tactic(auto)]

mod lent;
mod piece_lists;
mod reading;
mod seek;
mod text;

ghost use Rattle.std.specs.Prelude.{◌≤◌, length};
ghost use Rattle.listing.specs.Cursor.{Valid, Ready, NextLine};
ghost use Rattle.listing.specs.Tables.{run_of};
ghost use Rattle.listing.specs.Lent.{listed_pieces, listed_symbols, listed_relocs, tables_of};

use crate::reading::figure_of;
use crate::seek::seek;
use crate::text::{piece_line, reloc_line, symbol_line, unit_line};
pub use lent::ListedTables;
use lines::write_total;
pub use piece_lists::PieceLists;

// Where the next line begins, and the sum of the figures so far.
#[derive(Clone, Copy)]
pub enum Cursor {
    Units { unit: u16, bytes: u64 },
    Pieces { unit: u16, at: usize, bytes: u64 },
    Symbols { unit: u16, at: usize, bytes: u64 },
    Relocs { unit: u16, at: usize, bytes: u64 },
    Total { bytes: u64 },
    Done,
}

// A line of so many bytes was written.
#[derive(Clone, Copy)]
pub struct Line {
    pub length: usize,
    pub next: Cursor,
}

// The line at a cursor that stands at a record of its unit, if one is left.
fn line_at(tables: &ListedTables, cursor: Cursor, out: &mut [u8]) -> Option<Line>
    requires { Valid (length tables.now.units.now.places.now) cursor
        × Ready (length tables.now.units.now.places.now) (listed_pieces tables.now.lists.now) (listed_symbols tables.now.lists.now) (listed_relocs tables.now.lists.now) cursor
        × (208 ≤ length out.old) }
    ensures { NextLine (run_of (tables_of tables.now.base.now tables.now.added.now tables.now.symbols.now tables.now.relocs.now tables.now.units.now tables.now.lists.now)) cursor out.old out.new result }
{
    match cursor {
        Cursor::Units { unit, bytes } => {
            let size = figure_of(tables, unit);
            let length = unit_line(tables, unit, size, out);
            let bytes = bytes + size;
            let next = Cursor::Pieces { unit, at: 0, bytes };
            Some(Line { length, next })
        }
        Cursor::Pieces { unit, at, bytes } => {
            let length = piece_line(tables, at, out);
            let at = at + 1;
            let next = Cursor::Pieces { unit, at, bytes };
            Some(Line { length, next })
        }
        Cursor::Symbols { unit, at, bytes } => {
            let length = symbol_line(tables, at, out);
            let at = at + 1;
            let next = Cursor::Symbols { unit, at, bytes };
            Some(Line { length, next })
        }
        Cursor::Relocs { unit, at, bytes } => {
            let length = reloc_line(tables, at, out);
            let at = at + 1;
            let next = Cursor::Relocs { unit, at, bytes };
            Some(Line { length, next })
        }
        Cursor::Total { bytes } => {
            let units = tables.units.places.len() as u16;
            let pieces = tables.lists.made.pieces as u16;
            let length = write_total(out, units, pieces, bytes);
            let next = Cursor::Done;
            Some(Line { length, next })
        }
        Cursor::Done => None,
    }
}

// The next line of the listing, if one is left.
pub fn next_line(tables: &ListedTables, cursor: Cursor, out: &mut [u8]) -> Option<Line>
    requires { Valid (length tables.now.units.now.places.now) cursor
        × (208 ≤ length out.old) }
    ensures { NextLine (run_of (tables_of tables.now.base.now tables.now.added.now tables.now.symbols.now tables.now.relocs.now tables.now.units.now tables.now.lists.now)) cursor out.old out.new result }
{
    let units = tables.units.places.len() as u16;
    line_at(tables, seek(units, tables.lists, cursor), out)
}
