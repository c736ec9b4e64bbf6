// The split table of the run: "It merges the partial splits in file order (`add_split`), marks common (`update_common_splits` with no start), fills gaps
// (`create_gap_splits`), checks (`validate_splits`), trims (..)". All tables are those of a file that was accepted, so that none is checked again.
#![tactic(auto)]

ghost use Rattle.std.specs.Prelude.{◌≡◌, ◌≤◌};
ghost use Rattle.loaded.specs.Tables.{file_names};
ghost use Rattle.splits.specs.Table.{rows_in, SameLent as SameTable};
ghost use Rattle.gap_splits.specs.Answers as entering;
ghost use Rattle.run_splits.specs.Table.{split_table, split_tables, gaps_in, Ready};

use create_gap_splits::create_gap_splits;
use gap_columns::GapTable;
use gap_splits::AddedNames;
use loaded::Loaded;
use names::NameIndex;
use obj::Refusal;
use run_merge::merge_partials;
use run_trim::check_and_trim;
use splits::{SplitEnds, SplitTable};

// The gaps of the table filled, with columns of its own for those that are found. `index` is that of the file's names.
fn fill_gaps(
    loaded: &Loaded,
    index: &NameIndex,
    table: &mut SplitTable,
    added: &mut AddedNames,
) -> Result<(), Refusal>
    requires { Ready loaded.now index.now
        × (table.old.room ≤ 1024) }
    ensures tables { entering.meant (file_names loaded.now)
        (entering.added_in added.new) (rows_in table.new) result
        ≡ gaps_in loaded.now table.old.room
        (entering.ceilings (file_names loaded.now) added.old.most.names added.old.most.bytes) (rows_in table.old) }
    ensures lent { SameTable table.old table.new }
    ensures added { entering.SameLent added.old added.new }
{
    let mut marks = [0u8; 4096];
    let mut keys = [0u64; 6208];
    let mut ends = [0u32; 6208];
    let mut found = GapTable {
        keys: &mut keys,
        ends: &mut ends,
        count: 0,
        room: 6208,
    };
    create_gap_splits(
        &loaded.obj(),
        index,
        &loaded.image(),
        table,
        added,
        &mut marks,
        &mut found,
    )
}

// The split table of a loaded file, with its gaps: at most as many rows and added names as there is room for. `index` is that of the file's names.
pub fn split_table(
    loaded: &Loaded,
    index: &NameIndex,
    table: &mut SplitTable,
    added: &mut AddedNames,
) -> Result<(), Refusal>
    requires { Ready loaded.now index.now
        × (table.old.room ≤ 1024) }
    ensures tables { entering.meant (file_names loaded.now)
        (entering.added_in added.new) (rows_in table.new) result
        ≡ split_table loaded.now.file.now (split_tables loaded.now) table.old.room
        (entering.ceilings (file_names loaded.now) added.old.most.names added.old.most.bytes) }
    ensures lent { SameTable table.old table.new }
    ensures added { entering.SameLent added.old added.new }
{
    merge_partials(loaded, table)?;
    fill_gaps(loaded, index, table, added)?;
    let mut falls = [0u32; 1024];
    let starts = &mut *table.starts;
    let ends = &mut *table.ends;
    let units = &mut *table.units;
    let rest = &mut *table.rest;
    let mut trimmed = SplitEnds {
        starts: &*starts,
        ends: &mut *ends,
        units: &*units,
        rest: &*rest,
        count: table.count,
    };
    check_and_trim(loaded, &mut trimmed, &mut falls)
}
