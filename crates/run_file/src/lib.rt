// The run of a record file, over lent columns: load, then the stages one after another. Names stay in the file; only those of gaps' units are added, beside them. The
// columns that a stage needs for itself are local to it.
#![tactic(auto)]

ghost use Rattle.std.specs.Prelude.{◌≡◌, ◌/◌, length};
ghost use Rattle.loaded.specs.Tables.{tables_of};
ghost use Rattle.splits.specs.Table.{columns_in, SameLent as SameTable};
ghost use Rattle.run_load.specs.Lent.{SameColumns};
ghost use Rattle.run.specs.Run.{stages};
ghost use Rattle.run.specs.Outputs.{room_lent, ran_to, SameLent};
ghost use Rattle.run_file.specs.RunFile.{rooms_in, beside_in, ReadyIn, LoadedIn, Lent, SameNames, StoredIn, HoldsIn, RunsIn};

use gap_splits::AddedNames;
use load::{Counts, NAMES, RELOCATIONS, SECTIONS, SPLITS, SYMBOLS, UNITS, part};
use loaded::Loaded;
use names::{NameIndex, Room};
use order::Unlinked;
use run::{Ran, RunTables, order_and_walk};
use run_load::{FileColumns, Prepared, prepare};
use run_room::{bytes_room, names_room};
use run_splits::split_table;
use splits::SplitTable;

// What the run answers, and how many records of each kind the file has.
// The counts stand beside the result, since they are promised with an order and with a cycle; with a refusal they are zeros.
#[derive(Clone, Copy)]
pub struct RanFile {
    pub ran: Result<Ran, Unlinked>,
    pub counts: Counts,
}

// The tables of a file that was loaded: the parts of its columns.
fn loaded_in<'a>(file: &'a [u8], prepared: Prepared, columns: &'a FileColumns) -> Loaded<'a>
    requires { StoredIn file.now prepared columns.now }
    ensures { LoadedIn file.now prepared columns.now result }
{
    let counts = prepared.counts;
    let names = counts.names;
    let sections = counts.sections;
    let ordered = prepared.ordered;
    let places = &*columns.places;
    Loaded {
        file,
        names: part(places, NAMES, names),
        lengths: &columns.lengths[..names],
        sections: part(places, SECTIONS, sections),
        images: &columns.images[..sections],
        symbols: part(places, SYMBOLS, counts.symbols),
        order: &columns.order[..ordered],
        relocs: part(places, RELOCATIONS, counts.relocations),
        partials: part(places, SPLITS, counts.splits),
        units: part(places, UNITS, counts.units),
    }
}

// The stages over the tables of a file, and added names of which `most.names` have a place and `most.bytes` bytes are lent.
fn run_tables(
    loaded: &Loaded,
    index: &NameIndex,
    table: &mut SplitTable,
    added: &mut AddedNames,
    most: Room,
    out: &mut RunTables,
) -> Result<Ran, Unlinked>
    requires { ReadyIn loaded.now index.now
        × Lent table.old added.old }
    ensures run { (ran_to (beside_in added.new) (columns_in table.new) out.new result
        ≡ stages loaded.now.file.now
        (tables_of loaded.now)
        (rooms_in loaded.now.file.now most.names most.bytes table.old.room (length out.old.units.now / 8) (room_lent out.old)
        (tables_of loaded.now)))
        × HoldsIn most.names most.bytes table.old.room out.old (beside_in added.new) out.new result }
    ensures table { SameTable table.old table.new }
    ensures added { SameNames added.old added.new }
    ensures lent { SameLent out.old out.new }
{
    added.count = 0;
    added.used = 0;
    added.most = Room {
        names: names_room(loaded.names.len(), most.names),
        bytes: bytes_room(loaded.lengths, most.bytes),
    };
    let filled = split_table(loaded, index, table, added);
    order_and_walk(
        filled,
        loaded,
        added.count,
        added.used,
        &table.columns(),
        out,
    )
}

// The run of a file. `columns` then hold what was loaded, `table` the split table, and `added` the names that were added.
pub fn run_file(
    file: &[u8],
    columns: &mut FileColumns,
    table: &mut SplitTable,
    added: &mut AddedNames,
    most: Room,
    out: &mut RunTables,
) -> RanFile
    requires { Lent table.old added.old }
    ensures columns { SameColumns columns.old columns.new }
    ensures run { RunsIn file.now most.names most.bytes table.old.room out.old result columns.new (beside_in added.new) (columns_in table.new) out.new }
    ensures table { SameTable table.old table.new }
    ensures added { SameNames added.old added.new }
    ensures lent { SameLent out.old out.new }
{
    // no `?`: the answer is a struct, as the counts stand beside every result
    let prepared = match prepare(file, columns) {
        Ok(prepared) => prepared,
        Err(refusal) => {
            return RanFile {
                ran: Err(Unlinked::Refused(refusal)),
                counts: Counts::default(),
            };
        }
    };
    let ran = run_tables(
        &loaded_in(file, prepared, columns),
        &columns.index(),
        table,
        added,
        most,
        out,
    );
    RanFile {
        ran,
        counts: prepared.counts,
    }
}
