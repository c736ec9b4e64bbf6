// The end of the run: "orders (`resolve_link_order`, `toposort`) and walks (`split_obj`, its section loop only)", over the tables of a file that was accepted and the
// split table that was made of it, so that no table is checked again.
#![tactic(auto)]

ghost use Rattle.std.specs.Prelude.{◌≡◌, List, ℕ, ◌/◌, ◌<◌, length, Ok};
ghost use Rattle.lists.specs.Sort.{All};
ghost use Rattle.obj.specs.declared.Unit as unit_records;
ghost use Rattle.names.specs.Append.{Columns as Beside};
ghost use Rattle.splits.specs.Table.{columns_of, rows_of};
ghost use Rattle.gap_splits.specs.Added.{added};
ghost use Rattle.gap_splits.specs.Answers as entering;
ghost use Rattle.run.specs.Run.{walked};
ghost use Rattle.run.specs.Answers.{units_at, PreparedIn, Tabled, Units, Keeps, WalkGives, walked_tables, walked_after};
ghost use Rattle.run.specs.Outputs.{room_lent, ran_to, SameLent};

use link_graph::LinkTables;
use loaded::Loaded;
use obj::{Refusal, Table};
use order::{Unlinked, ordered};
use pieces::{Counts, PieceTables};
use splits::SplitColumns;
use stage_walk::{room_of, walk_columns};
use tables::fill_places;
use units::number_units;
use walk::NumberedUnits;

// What a run leaves: how many names were added, with how many bytes, and how many splits, units and records of the walk there are.
#[derive(Clone, Copy, Default)]
pub struct Ran {
    pub names: usize,
    pub used: usize,
    pub splits: usize,
    pub units: usize,
    pub made: Counts,
}

// What the end of a run writes: the units in link order, and the walk's pieces, piece symbols and piece relocations.
#[derive(Drop)]
pub struct RunTables<'u, 'p, 'e, 'o> {
    pub units: &'u mut [u8],
    pub pieces: &'p mut [u8],
    pub entries: &'e mut [u8],
    pub offsets: &'o mut [u8],
}

// The walk of the rows into the lent tables, with columns of its own for the units: how many records are made. The first `count` records of the unit table are the units
// in link order: their number stands in the answer of the link order, and of a slice that is cut to 8 * count bytes it would be divided out again.
fn walk_lent(
    loaded: &Loaded,
    splits: &SplitColumns,
    count: usize,
    out: &mut RunTables,
) -> Result<Counts, Refusal>
    requires { PreparedIn loaded.now
        × Tabled (length loaded.now.sections.now) (columns_of splits.now) splits.now.count
        × Units out.old.units.now count
        × All (λ (u : unit_records.Unit). u.name < 4096) (units_at out.old.units.now count) }
    ensures gives { WalkGives
        (walked loaded.now.file.now (walked_tables loaded.now) (room_lent out.old) (rows_of splits.now) (units_at out.old.units.now count))
        (room_lent out.old) result out.new.pieces.now out.new.entries.now out.new.offsets.now }
    ensures units { out.new.units.now ≡ out.old.units.now }
    ensures lent { SameLent out.old out.new }
{
    let mut places = [0u32; 1024];
    let mut unit_numbers = [0u16; 4096];
    let unit_table = &mut *out.units;
    let pieces = &mut *out.pieces;
    let entries = &mut *out.entries;
    let offsets = &mut *out.offsets;
    fill_places(&mut places[..count], 8);
    let unit_records = Table {
        bytes: unit_table,
        places: &places[..count],
    };
    number_units(&unit_records, &mut unit_numbers);
    let units = NumberedUnits {
        table: unit_records,
        numbers: &unit_numbers,
    };
    let mut tables = PieceTables {
        room: room_of(pieces.len(), entries.len(), offsets.len()),
        made: Counts::default(),
        pieces: &mut *pieces,
        symbols: &mut *entries,
        relocs: &mut *offsets,
    };
    let relocs = Table {
        bytes: loaded.file,
        places: loaded.relocs,
    };
    walk_columns(
        &loaded.obj(),
        &loaded.image(),
        &relocs,
        splits,
        &units,
        &mut tables,
    )?;
    Ok(tables.made)
}

// The link order and the walk of what the stages before gave, with so many names added of so many bytes: what they refused is refused.
pub fn order_and_walk(
    filled: Result<(), Refusal>,
    loaded: &Loaded,
    names: usize,
    used: usize,
    splits: &SplitColumns,
    out: &mut RunTables,
) -> Result<Ran, Unlinked>
    requires { PreparedIn loaded.now
        × (filled ≡ Ok tt → Tabled (length loaded.now.sections.now) (columns_of splits.now) splits.now.count) }
    ensures run { ((base : List (List ℕ)) → (c : Beside)
        → ran_to c (columns_of splits.now) out.new result
        ≡ walked_after loaded.now.file.now
        (walked_tables loaded.now)
        (length out.old.units.now / 8) (room_lent out.old) (length base)
        (entering.meant base (added c names) (rows_of splits.now) filled))
        × Keeps names used splits.now.count (room_lent out.old) out.new.units.now result }
    ensures lent { SameLent out.old out.new }
{
    filled?;
    let linked = ordered(
        &LinkTables {
            splits: *splits,
            heads: loaded.heads(),
            names: loaded.names(),
            units: Table {
                bytes: loaded.file,
                places: loaded.units,
            },
        },
        out.units,
    );
    let k = linked?;
    let made = walk_lent(loaded, splits, k, out)?;
    Ok(Ran {
        names,
        used,
        splits: splits.count,
        units: k,
        made,
    })
}
