// What is read of the lent tables: a name, a piece, the owner of a symbol, a unit's figure.
ghost use Rattle.std.specs.Prelude.{◌≡◌, ◌<◌};
ghost use Rattle.listing.specs.Listing.{sizes, pieces_of, common_size, commons, symbols_of};
ghost use Rattle.listing.specs.Cursor.{piece_of, owner_at};
ghost use Rattle.listing.specs.Tables.{Known, Name, Adds, Summed, Figure};
ghost use Rattle.listing.specs.Lent.{listed_pieces, listed_symbols, piece_on, symbol_on, symbol_of, columns_of};

use crate::{ListedTables, PieceLists};
use names::name_at;
use obj::{Symbol, record_in};
use pieces::{Piece, PieceSymbol};

// A number below the base's count is a base name, else an added one.
pub fn name_of<'a>(tables: &ListedTables<'a>, k: usize) -> &'a [u8]
    requires { Known (columns_of tables.now.base.now) (columns_of tables.now.added.now) k }
    ensures { Name (columns_of tables.now.base.now) (columns_of tables.now.added.now) k result.now }
{
    if k < tables.base.places.len() {
        return name_at(tables.base, k);
    }
    name_at(tables.added, k - tables.base.places.len())
}

// Piece k; all zeros where there is none, since what is listed of it then is what is listed of zeros (`no_piece`): an Option would be turned into them by each caller.
pub fn piece_of(lists: &PieceLists, k: usize) -> Piece
    ensures { result ≡ piece_of (listed_pieces lists.now) k }
{
    if k < lists.made.pieces {
        return record_in(lists.pieces, k);
    }
    Piece::default()
}

// "piece or `common`": the number of the piece in its unit, if a piece has the symbol.
pub fn owner_of(lists: &PieceLists, place: u16) -> Option<u16>
    ensures { result ≡ owner_at (listed_pieces lists.now) place }
{
    if place == 65535 {
        return None;
    }
    let p = piece_of(lists, place as usize);
    Some(p.number)
}

// What piece k adds to the figure of the unit.
fn size_in(lists: &PieceLists, k: usize, unit: u16) -> u64
    requires { k < lists.now.made.pieces }
    ensures { Adds unit (piece_on lists.now k).unit (piece_on lists.now k).size result }
{
    let p: Piece = record_in(lists.pieces, k);
    if p.unit == unit {
        return p.size as u64;
    }
    0
}

// "the pieces' sizes"
fn pieces_size(lists: &PieceLists, unit: u16) -> u64
    ensures { Summed lists.now.made.pieces (sizes (pieces_of unit (listed_pieces lists.now))) result }
{
    let mut sum: u64 = 0;
    // a loop, here and in `commons_size`: std's `sum` asks of every run of a `map` that its sum is below 2^64, and what bounds it is what `size_in` and `common_in` say of
    // each k; the invariant of a loop takes that as it is, and of the items of a mapped range it would be shown first
    for k in 0..lists.made.pieces {
        sum += size_in(lists, k, unit);
    }
    sum
}

// What piece symbol k adds to the figure of the unit: the size of the image's symbol, if it is listed as common and that size is known.
fn common_in(tables: &ListedTables, k: usize, unit: u16) -> u64
    requires { k < tables.now.lists.now.made.symbols }
    ensures { Adds unit (symbol_on tables.now.lists.now k).unit (common_size (symbol_of tables.now.symbols.now) (symbol_on tables.now.lists.now k)) result }
{
    let y: PieceSymbol = record_in(tables.lists.symbols, k);
    if y.unit != unit {
        return 0;
    }
    if y.piece != 65535 {
        return 0;
    }
    let s = tables.symbols.record::<Symbol>(y.symbol as usize);
    if s.size_known == 1 {
        return s.size as u64;
    }
    0
}

// "the sizes of the unit's symbols of known size that are listed as `common`, each once"
fn commons_size(tables: &ListedTables, unit: u16) -> u64
    ensures { Summed tables.now.lists.now.made.symbols (commons (symbol_of tables.now.symbols.now) (symbols_of unit (listed_symbols tables.now.lists.now))) result }
{
    let mut sum: u64 = 0;
    for k in 0..tables.lists.made.symbols {
        sum += common_in(tables, k, unit);
    }
    sum
}

// "the unit figure is the pieces' sizes plus ..", in 64 bits
pub fn figure_of(tables: &ListedTables, unit: u16) -> u64
    ensures { Figure (symbol_of tables.now.symbols.now) (listed_pieces tables.now.lists.now) (listed_symbols tables.now.lists.now) unit result }
{
    let of_pieces = pieces_size(tables.lists, unit);
    let of_commons = commons_size(tables, unit);
    of_pieces + of_commons
}
