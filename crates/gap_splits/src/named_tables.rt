// What a gap's unit is named by. A struct with a ghost field imports all that its file does, so it stands in a file of its own.
ghost use Rattle.tables.specs.Tables.{AllHeld};
ghost use Rattle.gap_splits.specs.Answers.{TablesIn};

use names::{NameIndex, Names};
use obj::Table;

// The sections' heads, and the names of the tables with their index.
#[derive(Clone, Copy)]
pub struct NamedTables<'h, 'i, 'b, 'p, 'l, 'c, 'd> {
    pub heads: Table<'h, 'i>,
    pub names: Names<'b, 'p, 'l>,
    pub index: NameIndex<'c, 'd>,
    pub ghost held: { AllHeld 15 heads.bytes.now heads.places.now },
    pub ghost tables: { TablesIn heads names index },
}
