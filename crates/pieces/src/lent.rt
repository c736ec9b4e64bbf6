// The three lent tables that the walk writes.
ghost use Rattle.pieces.specs.Room.{Fits};

use crate::Counts;

// Each table's records, with how many it may hold and how many are made.
#[derive(Drop)]
pub struct PieceTables<'p, 's, 'r> {
    pub pieces: &'p mut [u8],
    pub symbols: &'s mut [u8],
    pub relocs: &'r mut [u8],
    pub room: Counts,
    pub made: Counts,
    pub ghost fits: { Fits pieces.now symbols.now relocs.now room made },
}
