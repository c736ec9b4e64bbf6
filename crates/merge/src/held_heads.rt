// The sections' heads. A struct with a ghost field imports all that its file does, so it stands in a file of its own.
ghost use Rattle.tables.specs.Tables.{AllHeld};

use obj::Table;

// The heads of all sections, each of which can be read. What other crates call, `add_split` and `add_splits`, takes a `Table`, as they have it, with the same fact as a clause, and makes this.
#[derive(Clone, Copy)]
pub struct HeldHeads<'h, 'i> {
    pub table: Table<'h, 'i>,
    pub ghost held: { AllHeld 15 table.bytes.now table.places.now },
}
