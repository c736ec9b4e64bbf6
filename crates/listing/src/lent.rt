// What the lines are read from, and the unit that a cursor stands in. A struct with a ghost field imports all that its file does, so these stand in a file of their own.
ghost use Rattle.std.specs.Prelude.{◌^◌, ◌<◌};
ghost use Rattle.listing.specs.Cursor.{Within};
ghost use Rattle.listing.specs.Tables.{Readable};
ghost use Rattle.listing.specs.Lent.{tables_of};

use crate::PieceLists;
use names::Names;
use obj::Table;

// All tables of a run: names in two parts, those of the input and those that were added; symbols and relocations of the image; the units in link order; and what the
// walk gave.
#[derive(Clone, Copy)]
pub struct ListedTables<'a> {
    pub base: &'a Names<'a, 'a, 'a>,
    pub added: &'a Names<'a, 'a, 'a>,
    pub symbols: &'a Table<'a, 'a>,
    pub relocs: &'a Table<'a, 'a>,
    pub units: &'a Table<'a, 'a>,
    pub lists: &'a PieceLists<'a, 'a, 'a>,
    pub ghost readable: { Readable (tables_of base.now added.now symbols.now relocs.now units.now lists.now) },
    pub ghost counted: { lists.now.made.relocs < 2 ^ 64 },
}

// One of so many units, with the sum of the figures up to it and its own.
#[derive(Clone, Copy)]
pub struct UnitHere<'a> {
    pub lists: &'a PieceLists<'a, 'a, 'a>,
    pub units: u16,
    pub unit: u16,
    pub bytes: u64,
    pub ghost within: { Within units unit bytes },
}
