// The units with the column of their numbers. A struct with a ghost field imports all that its file does, so it stands in a file of its own.
ghost use Rattle.units.specs.Units.{unit_names, Numbered};

use obj::Table;

// The units, and the number of the unit of each name.
#[derive(Clone, Copy)]
pub struct NumberedUnits<'u, 'p, 'n> {
    pub table: Table<'u, 'p>,
    pub numbers: &'n [u16],
    pub ghost numbered: { Numbered numbers.now (unit_names table.bytes.now table.places.now) },
}
