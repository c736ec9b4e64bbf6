// The walk of all sections in columns of its own, and the tables that come right before it: the units, and the splits before them. The entry `split_obj` asks it
// after its other tables, a run with columns that it has already.
#![tactic(auto)]

ghost use Rattle.std.specs.Prelude.{◌≡◌, ◌≤◌, ◌<◌, length};
ghost use Rattle.sections.specs.Image.{image_in};
ghost use Rattle.splits.specs.Table.{columns_of, rows_of};
ghost use Rattle.relocs.specs.Relocs.{reloc_of};
ghost use Rattle.units.specs.Units.{unit_names};
ghost use Rattle.split_obj.specs.Loop.{Ready};
ghost use Rattle.stage_walk.specs.Room.{room_in, within_ceilings};
ghost use Rattle.stage_walk.specs.Laid.{OutputFits, OutputLaid};
ghost use Rattle.walk.specs.Giving.{output_in};
ghost use Rattle.sections.specs.Sections.{sections_lent};
ghost use Rattle.stage_walk.specs.Lines.{walk_of, from_units, from_splits, Gives, Passed, heads_in, Rowed};

use obj::{Refusal, Table};
use outputs::{clear_from, room_for};
use pieces::{Counts, PIECE_BYTES, PieceTables};
use sections::Obj;
use split_obj::walk_sections;
use splits::{SplitColumns, SplitTable};
use stage_splits::take_split_columns;
use stage_tables::units_table;
use units::number_units;
use walk::NumberedUnits;

// How many records lent tables of these sizes may take.
pub fn room_of(pieces: usize, symbols: usize, relocs: usize) -> Counts
    ensures { result ≡ room_in pieces symbols relocs }
{
    Counts {
        pieces: room_for(1024, PIECE_BYTES, pieces),
        symbols: room_for(4096, 12, symbols),
        relocs: room_for(4096, 8, relocs),
    }
}

// Zeros after the records of the walk. The tables are lent one by one: only of what is lent so is it known that its numbers are bytes.
pub fn lay_output(made: Counts, pieces: &mut [u8], entries: &mut [u8], offsets: &mut [u8])
    requires { OutputFits made (length pieces.old) (length entries.old) (length offsets.old) }
    ensures { OutputLaid (output_in pieces.old entries.old offsets.old made)
        (length pieces.old) (length entries.old) (length offsets.old) pieces.new entries.new offsets.new }
{
    clear_from(pieces, PIECE_BYTES * made.pieces);
    clear_from(entries, 12 * made.symbols);
    clear_from(offsets, 8 * made.relocs);
}

// A room of which no more is taken than document 01's ceilings: "1,024 pieces, 4,096 piece symbols, 4,096 piece relocations".
fn within_ceilings(room: Counts) -> Counts
    ensures { result ≡ within_ceilings room }
{
    Counts {
        pieces: room.pieces.min(1024),
        symbols: room.symbols.min(4096),
        relocs: room.relocs.min(4096),
    }
}

// The tables of the next three stay apart: each of the three has other ones, since the splits and the units are still bytes in the last, and a struct of all would have nineteen lifetimes.

// The walk of all sections from nothing, with columns of its own beside the outputs. However much room is lent, no more than the ceilings is taken.
pub fn walk_columns(
    obj: &Obj,
    image: &Table,
    relocs: &Table,
    splits: &SplitColumns,
    units: &NumberedUnits,
    tables: &mut PieceTables,
) -> Result<(), Refusal>
    requires { Ready obj.now.symbols.bytes.now obj.now.symbols.places.now obj.now.order.now obj.now.names.bytes.now obj.now.names.places.now obj.now.names.lengths.now obj.now.heads.bytes.now obj.now.heads.places.now image.now.bytes.now image.now.places.now relocs.now.bytes.now relocs.now.places.now units.now.table.places.now units.now.numbers.now (columns_of splits.now) splits.now.count (length obj.now.heads.places.now)
        × (length obj.now.symbols.places.now ≤ 4096) }
    ensures { Gives
        (walk_of (image_in obj.now) (sections_lent obj.now.heads image.now) (reloc_of relocs.now.bytes.now relocs.now.places.now) (length relocs.now.places.now) (rows_of splits.now) (unit_names units.now.table.bytes.now units.now.table.places.now) (within_ceilings tables.old.room))
        tables.old tables.new result }
{
    let mut scratch = [0u16; 9216];
    let mut part = [0u16; 4096];
    let room = tables.room;
    tables.room = within_ceilings(room);
    tables.made = Counts::default();
    let walked = walk_sections(
        &mut scratch,
        &mut part,
        tables,
        obj,
        image,
        relocs,
        splits,
        units,
        0,
        obj.heads.places.len(),
    );
    tables.room = room;
    walked
}

// The units, with the number of each name's unit, and the walk.
fn with_units(
    obj: &Obj,
    image: &Table,
    relocs: &Table,
    splits: &SplitColumns,
    unit_table: &[u8],
    tables: &mut PieceTables,
) -> Result<(), Refusal>
    requires { Passed obj.now image.now relocs.now
        × Rowed (columns_of splits.now) splits.now.count (length obj.now.names.lengths.now) }
    ensures { Gives
        (from_units obj.now.names.lengths.now (image_in obj.now) (sections_lent obj.now.heads image.now) (reloc_of relocs.now.bytes.now relocs.now.places.now) (length relocs.now.places.now) (rows_of splits.now) unit_table.now (within_ceilings tables.old.room))
        tables.old tables.new result }
{
    let mut places = [0u32; 1024];
    let mut unit_numbers = [0u16; 4096];
    let unit_records = units_table(obj.names.lengths, unit_table, 1024, &mut places)?;
    number_units(&unit_records, &mut unit_numbers);
    let units = NumberedUnits {
        table: unit_records,
        numbers: &unit_numbers,
    };
    walk_columns(obj, image, relocs, splits, &units, tables)
}

// The splits, and the tables after them.
pub fn with_splits(
    obj: &Obj,
    image: &Table,
    relocs: &Table,
    splits: &[u8],
    unit_table: &[u8],
    tables: &mut PieceTables,
) -> Result<(), Refusal>
    requires { Passed obj.now image.now relocs.now }
    ensures { Gives
        (from_splits obj.now.names.lengths.now (heads_in obj.now.heads) (image_in obj.now) (sections_lent obj.now.heads image.now) (reloc_of relocs.now.bytes.now relocs.now.places.now) (length relocs.now.places.now) splits.now unit_table.now (within_ceilings tables.old.room))
        tables.old tables.new result }
{
    let mut places = [0u32; 1024];
    let mut table = SplitTable {
        starts: &mut [0u32; 1024],
        ends: &mut [0u32; 1024],
        units: &mut [0u16; 1024],
        rest: &mut [0u64; 1024],
        count: 0,
        room: 1024,
    };
    take_split_columns(
        obj.names.lengths,
        &obj.heads,
        splits,
        &mut places,
        &mut table,
    )?;
    with_units(obj, image, relocs, &table.columns(), unit_table, tables)
}
