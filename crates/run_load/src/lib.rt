// A record file made ready for the stages: loaded into lent columns, with the places of the sections' bytes and the symbol order.
#![tactic(auto)]

ghost use Rattle.std.specs.Prelude.{◌≡◌, ◌+◌, ◌≤◌, length};
ghost use Rattle.tables.specs.Tables.{main_ceilings};
ghost use Rattle.load.specs.Load.{load_of};
ghost use Rattle.run_load.specs.Lent.{PreparesIn, ShowsIndex, SameColumns};

use load::{Counts, SECTIONS, SYMBOLS, load_file, part};
use loaded::image_places;
use names::NameIndex;
use obj::{Refusal, Table};
use symbol_order::make_order;
use tables::main_ceilings;

mod file_columns;

pub use file_columns::FileColumns;

// How many records of each kind there are, and how many symbols the order has: it is `order[..ordered]`.
#[derive(Clone, Copy)]
pub struct Prepared {
    pub counts: Counts,
    pub ordered: usize,
}

impl FileColumns<'_, '_, '_, '_, '_, '_> {
    // The index of the names, to read.
    pub fn index(&self) -> NameIndex<'_, '_>
        ensures { ShowsIndex self.now result }
    {
        NameIndex {
            heads: &*self.heads,
            chain: &*self.chain,
        }
    }
}

// The file loaded, the places of its sections' bytes at the front of `images`, and its symbol order.
pub fn prepare(file: &[u8], columns: &mut FileColumns) -> Result<Prepared, Refusal>
    ensures ready { PreparesIn file.now (load_of main_ceilings file.now) result columns.new }
    ensures lent { SameColumns columns.old columns.new }
{
    let mut scratch = [0u16; 4096];
    let places = &mut *columns.places;
    let counts = load_file(
        file,
        main_ceilings(),
        places,
        columns.lengths,
        columns.heads,
        columns.chain,
    )?;
    image_places(part(places, SECTIONS, counts.sections), columns.images);
    let ordered = make_order(
        &Table {
            bytes: file,
            places: part(places, SYMBOLS, counts.symbols),
        },
        columns.order,
        &mut scratch,
    );
    Ok(Prepared { counts, ordered })
}
