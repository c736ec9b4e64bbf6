// A table of one kind of record, all of which can be read. A struct with a ghost field imports all that its file does, so it stands in a file of its own.
ghost use Rattle.std.specs.Prelude.{◌<◌, ◌≡◌, length, get_or};
ghost use Rattle.tables.specs.Tables.{AllHeld};

use obj::{Record, Table};
use std::marker::PhantomData;

#[derive(Drop)]
pub struct HeldTable<'b, 'p, R: Record> {
    pub table: Table<'b, 'p>,
    pub kind: PhantomData<R>,
    pub ghost held: { AllHeld R.WIDTH table.bytes.now table.places.now },
}

impl<'b, 'p, R: Record> HeldTable<'b, 'p, R> {
    // A table, as what it is.
    pub fn of(table: &Table<'b, 'p>) -> HeldTable<'b, 'p, R>
        requires { AllHeld R.WIDTH table.now.bytes.now table.now.places.now }
        ensures { result.table ≡ table.now }
    {
        HeldTable {
            table: *table,
            kind: PhantomData,
        }
    }

    // Record k.
    pub fn record(&self, k: usize) -> R
        requires { k < length self.now.table.places.now }
        ensures { result ≡ R.stored self.now.table.bytes.now (get_or self.now.table.places.now k 0) }
    {
        self.table.record::<R>(k)
    }
}
