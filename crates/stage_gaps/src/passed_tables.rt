// What the gap stage reads. A struct with a ghost field imports all that its file does, so it stands in a file of its own.
ghost use Rattle.stage_gaps.specs.StageGaps.{Passed};

use names::{NameIndex, Room};
use obj::Table;
use sections::Obj;

// All tables but the splits, which passed their checks, and how many names, of how many bytes, may be added to theirs.
#[derive(Clone, Copy)]
pub struct PassedTables<'s, 't, 'o, 'b, 'p, 'l, 'h, 'i, 'c, 'd, 'm, 'q> {
    pub obj: Obj<'s, 't, 'o, 'b, 'p, 'l, 'h, 'i>,
    pub index: NameIndex<'c, 'd>,
    pub image: Table<'m, 'q>,
    pub most: Room,
    pub ghost passed: { Passed obj index image },
}
