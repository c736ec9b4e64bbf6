// The entry `update_common_splits` behind its C name: the checks of its tables, the stage, and what is left in the lent outputs. An array stands in the lowest function
// that needs it, which lends it to the check and reads the table that this gives.
#![tactic(auto)]

ghost use Rattle.std.specs.Prelude.{length};
ghost use Rattle.name_table.specs.Columns.{ReadableIn};
ghost use Rattle.stage_splits.specs.StageSplits.{Leaves};
ghost use Rattle.stage_splits.specs.Output.{GivesIn, SameLent};
ghost use Rattle.common.specs.Sections.{SectionsIn};
ghost use Rattle.entry_update_common_splits.specs.Entry.{update_of};
ghost use Rattle.tables.specs.Lent.{HeadsHeld};
ghost use Rattle.entry_update_common_splits.specs.Lent.{tables_outcome, splits_outcome, sections_outcome};

use common::update_common_records;
use lent_tables::{NO_TABLES, StageTables};
use name_table::NameArrays;
use names::Names;
use obj::{Refusal, Table};
use splits::{SplitRest, SplitTable};
use stage_splits::{SplitOutput, finish, give_splits, room_of, take_split_columns};
use stage_tables::sections_table;

// The splits and the stage on their table, which is then given.
fn from_splits(
    names: &Names,
    heads: &Table,
    splits: &[u8],
    given: Option<u32>,
    output: &mut SplitOutput,
) -> Result<(), Refusal>
    requires { SectionsIn names.now heads.now × HeadsHeld heads.now }
    ensures gives { GivesIn (splits_outcome names.now heads.now splits.now given (length output.old.splits.now)) result output.old output.new }
    ensures lent { SameLent output.old output.new }
{
    let mut places = [0u32; 1024];
    let mut starts = [0u32; 1024];
    let mut ends = [0u32; 1024];
    let mut units = [0u16; 1024];
    let mut rest = [0u64; 1024];
    let mut table = SplitTable {
        starts: &mut starts,
        ends: &mut ends,
        units: &mut units,
        rest: &mut rest,
        count: 0,
        room: room_of(output.splits.len()),
    };
    take_split_columns(names.lengths, heads, splits, &mut places, &mut table)?;
    let count = table.count;
    let mut marked = SplitRest {
        starts: &starts,
        ends: &ends,
        units: &units,
        rest: &mut rest,
        count,
    };
    update_common_records(names, heads, &mut marked, given)?;
    give_splits(&marked.columns(), output);
    Ok(())
}

// The sections, and the tables after them.
fn from_sections(
    names: &Names,
    lent: &StageTables,
    given: Option<u32>,
    output: &mut SplitOutput,
) -> Result<(), Refusal>
    requires { ReadableIn names.now }
    ensures gives { GivesIn (sections_outcome names.now lent.now given (length output.old.splits.now)) result output.old output.new }
    ensures lent { SameLent output.old output.new }
{
    let mut places = [0u32; 64];
    let heads = sections_table(names.lengths, lent.sections, 64, &mut places)?;
    from_splits(names, &heads, lent.splits, given, output)
}

// All tables.
fn checked(lent: &StageTables, given: Option<u32>, output: &mut SplitOutput) -> Result<(), Refusal>
    ensures gives { GivesIn (tables_outcome lent.now given (length output.old.splits.now)) result output.old output.new }
    ensures lent { SameLent output.old output.new }
{
    let mut columns = NameArrays::new();
    columns.check(lent.name_ends, lent.name_bytes, 4096)?;
    from_sections(
        &columns.names(lent.name_ends, lent.name_bytes),
        lent,
        given,
        output,
    )
}

// The entry: the splits with the common ones marked, or a refusal, and every byte of the outputs.
pub fn update_common_splits(
    name_ends: &[u8],
    name_bytes: &[u8],
    sections: &[u8],
    splits: &[u8],
    has_start: u8,
    start: u32,
    out: &mut [u8],
    counts: &mut [u8],
) -> u64
    ensures { Leaves (update_of name_ends.now name_bytes.now sections.now splits.now has_start start (length out.old))
        (length out.old) (length counts.old) result out.new counts.new }
{
    let lent = StageTables {
        name_ends,
        name_bytes,
        sections,
        splits,
        ..NO_TABLES
    };
    let mut output = SplitOutput {
        splits: out,
        counts,
    };
    let given = (has_start != 0).then_some(start);
    let a = checked(&lent, given, &mut output);
    finish(a, &mut output)
}
