// The three tables that the walk wrote, to read. A struct with a ghost field imports all that its file does, so it stands in a file of its own.
ghost use Rattle.listing.specs.Room.{Kept};

use pieces::Counts;

// Each table's records, with how many were made.
#[derive(Clone, Copy)]
pub struct PieceLists<'p, 's, 'r> {
    pub pieces: &'p [u8],
    pub symbols: &'s [u8],
    pub relocs: &'r [u8],
    pub made: Counts,
    pub ghost held: { Kept pieces.now symbols.now relocs.now made },
}
