// Columns beside the output of the walk, so that what is asked of it is answered without looking through it: how many pieces each unit has, and for each
// symbol the chain of its entries among the piece symbols. All start with zeros. The chains are two columns in one: the last entry of each of 4,096 symbols,
// then for each entry the one before it.
#![tactic(auto)]

ghost use Rattle.std.specs.Prelude.{◌≡◌, ◌+◌, ◌*◌, ◌<◌, ◌≤◌, ℕ, List, length};
ghost use Rattle.pieces.specs.Pieces.{pieces_in, symbols_in, piece_width};
ghost use Rattle.pieces.specs.Questions.{count_of, has};
ghost use Rattle.piece_columns.specs.Columns.{Counted, ChainedOf, CountedIn, ChainedIn, lasts_in, prevs_in, PutPiece, PutSymbol, PushedPiece, PushedSymbol};

use fields::number;
use obj::{put_record, record_in};
use pieces::{Piece, PieceSymbol, PieceTables};

// How many of the pieces are the unit's, whichever are counted: the number in its unit of the next one.
pub fn count_of(counts: &[u16], unit: usize) -> u16
    requires { unit < length counts.now }
    ensures { (out : List ℕ) (k : ℕ) → Counted counts.now out k → result ≡ count_of unit (pieces_in out k) }
{
    counts[unit]
}

// One piece more, behind the k that are there.
pub fn put_counted(counts: &mut [u16], out: &mut [u8], k: usize, p: Piece)
    requires { (p.unit < length counts.old) × Counted counts.old out.old k × (piece_width * k + piece_width ≤ length out.old) × (k < 65535) }
    ensures { PutPiece counts.new out.old out.new k p }
{
    counts[usize::from(p.unit)] += 1;
    put_record(out, k, p);
}

// .. in the lent tables.
pub fn push_piece(counts: &mut [u16], tables: &mut PieceTables, p: Piece)
    requires { (p.unit < length counts.old) × CountedIn counts.old tables.old × (tables.old.made.pieces < tables.old.room.pieces) × (tables.old.made.pieces < 65535) }
    ensures { PushedPiece counts.new tables.old tables.new p }
{
    put_counted(counts, tables.pieces, tables.made.pieces, p);
    tables.made.pieces += 1;
}

// Whether one of the piece symbols, as many as are chained, is this symbol of the unit: along the chain of its entries, from the last to the first.
pub fn has_symbol(chains: &[u16], entries: &[u8], unit: u16, symbol: usize) -> bool
    requires { (symbol < length (lasts_in chains.now)) × ((k : ℕ) × ChainedOf chains.now entries.now k) }
    ensures { (k : ℕ) → ChainedOf chains.now entries.now k → result ≡ has unit symbol (symbols_in entries.now k) }
{
    // along a chain: no count
    let mut j = number(chains, symbol);
    while j != 0 {
        let y: PieceSymbol = record_in(entries, j - 1);
        if y.unit == unit {
            return true;
        }
        j = number(chains, 4096 + (j - 1));
    }
    false
}

// One piece symbol more, behind the k that are there, and at the front of its chain.
pub fn put_chained(chains: &mut [u16], out: &mut [u8], k: usize, y: PieceSymbol)
    requires { (y.symbol < length (lasts_in chains.old)) × ChainedOf chains.old out.old k × (k < length (prevs_in chains.old)) × (12 * k + 12 ≤ length out.old) × (k < 65535) }
    ensures { PutSymbol (lasts_in chains.new) (prevs_in chains.new) out.old out.new k y }
{
    let i = usize::from(y.symbol);
    chains[4096 + k] = chains[i];
    chains[i] = k as u16 + 1;
    put_record(out, k, y);
}

// .. in the lent tables.
pub fn push_symbol(chains: &mut [u16], tables: &mut PieceTables, y: PieceSymbol)
    requires { (y.symbol < length (lasts_in chains.old))
        × ChainedIn chains.old tables.old
        × (tables.old.made.symbols < length (prevs_in chains.old))
        × (tables.old.made.symbols < tables.old.room.symbols)
        × (tables.old.made.symbols < 65535) }
    ensures { PushedSymbol chains.new tables.old tables.new y }
{
    put_chained(chains, tables.symbols, tables.made.symbols, y);
    tables.made.symbols += 1;
}
