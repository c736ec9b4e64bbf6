// The gap stage over tables that passed: the splits in columns, the filling of gaps, and what is left in the lent outputs. The columns are local; each function lends
// them on whole.
#![tactic(auto)]

ghost use Rattle.std.specs.Prelude.{◌≡◌, ◌++◌, ◌*◌, ◌≤◌, length};
ghost use Rattle.splits.specs.Table.{rows_of, rows_in};
ghost use Rattle.gap_splits.specs.Answers.{added_in, ceilings, ceilings_in};
ghost use Rattle.names.specs.Listed.{names_in, NamedIn};
ghost use Rattle.stage_splits.specs.StageSplits.{room_of};
ghost use Rattle.obj.specs.Records.{split_width};
ghost use Rattle.gaps.specs.Found.{Clean};
ghost use Rattle.stage_gaps.specs.StageGaps.{stage_of, filling_of, GivesIn, LaidIn, SameLent, SpaceIn, Passed};

use create_gap_splits::create_gap_splits;
use gap_columns::GapTable;
use gap_splits::AddedNames;
use names::{NameIndex, Names, Room};
use obj::{Refusal, Table};
use outputs::{clear_from, put_counts};
use sections::Obj;
use splits::{SplitColumns, SplitTable};
use stage_names::{NameOutput, first_names, give_names};
use stage_splits::{put_splits, room_of, take_split_columns};

mod passed_tables;

use passed_tables::PassedTables;

// The outputs that are lent to the stage: the ends and the bytes of the names, the splits, and the counts of all three.
#[derive(Drop)]
pub struct GapOutputs<'e, 'b, 's, 'c> {
    pub ends: &'e mut [u8],
    pub bytes: &'b mut [u8],
    pub splits: &'s mut [u8],
    pub counts: &'c mut [u8],
}

// ---- the outputs

// What the filling left in the columns, in the outputs.
fn give_filled(names: &Names, added: &AddedNames, splits: &SplitColumns, outputs: &mut GapOutputs)
    requires { NamedIn names.now
        × SpaceIn names.now added.now.most.names added.now.most.bytes outputs.old
        × (split_width * splits.now.count ≤ length outputs.old.splits.now)
        × (splits.now.count ≤ 1024) }
    ensures laid { LaidIn (record { names = names_in names.now ++ added_in added.now; rows = rows_of splits.now }) outputs.old outputs.new }
    ensures lent { SameLent outputs.old outputs.new }
{
    let more = first_names(&added.names(), added.count);
    let mut table = NameOutput {
        ends: &mut *outputs.ends,
        bytes: &mut *outputs.bytes,
    };
    let bytes = give_names(names, &more, &mut table);
    put_splits(splits, outputs.splits);
    let count = names.places.len() + added.count;
    clear_from(outputs.counts, 0);
    put_counts(
        outputs.counts,
        &[count as u16, bytes as u16, splits.count as u16],
    );
}

// ---- the tables

// The filling of gaps between the rows of the table, and its outputs.
fn fill_rows(
    tables: &PassedTables,
    table: &mut SplitTable,
    added: &mut AddedNames,
    marks: &mut [u8; 4096],
    found: &mut GapTable,
    outputs: &mut GapOutputs,
) -> Result<(), Refusal>
    requires space { SpaceIn tables.now.obj.names added.old.most.names added.old.most.bytes outputs.old }
    requires unmarked { Clean marks.old }
    requires gaps { found.old.room ≡ 6208 }
    requires few { table.old.room ≤ 1024 }
    requires splits { split_width * table.old.room ≤ length outputs.old.splits.now }
    ensures gives { GivesIn
        (filling_of tables.now.obj tables.now.image table.old.room (ceilings_in tables.now.obj.names added.old) (rows_in table.old))
        result outputs.old outputs.new }
    ensures lent { SameLent outputs.old outputs.new }
{
    let obj = &tables.obj;
    create_gap_splits(
        obj,
        &tables.index,
        &tables.image,
        table,
        added,
        marks,
        found,
    )?;
    give_filled(&obj.names, added, &table.columns(), outputs);
    Ok(())
}

// The same, with columns of its own for the names that are added and the gaps.
fn with_added(
    tables: &PassedTables,
    table: &mut SplitTable,
    outputs: &mut GapOutputs,
) -> Result<(), Refusal>
    requires { SpaceIn tables.now.obj.names tables.now.most.names tables.now.most.bytes outputs.old
        × (table.old.room ≤ 1024)
        × (split_width * table.old.room ≤ length outputs.old.splits.now) }
    ensures gives { GivesIn
        (filling_of tables.now.obj tables.now.image table.old.room (ceilings (names_in tables.now.obj.names) tables.now.most.names tables.now.most.bytes) (rows_in table.old))
        result outputs.old outputs.new }
    ensures lent { SameLent outputs.old outputs.new }
{
    let mut bytes = [0u8; 65535];
    let mut places = [0u32; 4096];
    let mut lengths = [0u8; 4096];
    let mut marks = [0u8; 4096];
    let mut keys = [0u64; 6208];
    let mut ends = [0u32; 6208];
    let mut added = AddedNames {
        bytes: &mut bytes,
        places: &mut places,
        lengths: &mut lengths,
        count: 0,
        used: 0,
        most: tables.most,
    };
    let mut found = GapTable {
        keys: &mut keys,
        ends: &mut ends,
        count: 0,
        room: 6208,
    };
    fill_rows(tables, table, &mut added, &mut marks, &mut found, outputs)
}

// The splits, and the filling.
pub fn with_splits(
    obj: &Obj,
    index: &NameIndex,
    image: &Table,
    splits: &[u8],
    most: Room,
    outputs: &mut GapOutputs,
) -> Result<(), Refusal>
    requires { Passed obj.now index.now image.now × SpaceIn obj.now.names most.names most.bytes outputs.old }
    ensures gives { GivesIn
        (stage_of obj.now image.now (ceilings (names_in obj.now.names) most.names most.bytes) splits.now (length outputs.old.splits.now))
        result outputs.old outputs.new }
    ensures lent { SameLent outputs.old outputs.new }
{
    let mut places = [0u32; 1024];
    let mut table = SplitTable {
        starts: &mut [0u32; 1024],
        ends: &mut [0u32; 1024],
        units: &mut [0u16; 1024],
        rest: &mut [0u64; 1024],
        count: 0,
        room: room_of(outputs.splits.len()),
    };
    take_split_columns(
        obj.names.lengths,
        &obj.heads,
        splits,
        &mut places,
        &mut table,
    )?;
    let tables = PassedTables {
        obj: *obj,
        index: *index,
        image: *image,
        most,
    };
    with_added(&tables, &mut table, outputs)
}
