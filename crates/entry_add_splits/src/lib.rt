// The entry `add_splits` behind its C name: the checks of its tables, the merge of the partial list into the split table, and what is left in the lent outputs.
// An array stands in the lowest function that needs it, which lends it to the check and reads the table that this gives.
#![tactic(auto)]

ghost use Rattle.std.specs.Prelude.{length};
ghost use Rattle.stage_splits.specs.StageSplits.{Leaves};
ghost use Rattle.stage_splits.specs.Output.{GivesIn, SameLent};
ghost use Rattle.entry_add_splits.specs.Entry.{add_splits_of};
ghost use Rattle.tables.specs.Lent.{HeadsHeld};
ghost use Rattle.entry_add_splits.specs.Lent.{tables_outcome, splits_outcome};

use lent_tables::{NO_TABLES, StageTables};
use name_table::NameArrays;
use obj::{Refusal, Table};
use splits::SplitTable;
use stage_splits::{SplitOutput, finish, give_splits, room_of, take_split_columns};
use stage_tables::{partials_table, sections_table};

// The split table, whose room is that of the output, the partial list, and the merge of both, which is then given. `lengths` are those of the names; `places` has those
// of the splits and, once they are in the table, those of the partial splits.
fn from_splits(
    lengths: &[u8],
    heads: &Table,
    lent: &StageTables,
    output: &mut SplitOutput,
) -> Result<(), Refusal>
    requires { HeadsHeld heads.now }
    ensures gives { GivesIn (splits_outcome lengths.now heads.now lent.now (length output.old.splits.now)) result output.old output.new }
    ensures lent { SameLent output.old output.new }
{
    let mut places = [0u32; 1024];
    let mut table = SplitTable {
        starts: &mut [0u32; 1024],
        ends: &mut [0u32; 1024],
        units: &mut [0u16; 1024],
        rest: &mut [0u64; 1024],
        count: 0,
        room: room_of(output.splits.len()),
    };
    take_split_columns(lengths, heads, lent.splits, &mut places, &mut table)?;
    // "1,024 splits"
    let partials = partials_table(lengths, lent.partials, 1024, &mut places)?;
    merge::add_splits(&mut table, heads, &partials)?;
    give_splits(&table.columns(), output);
    Ok(())
}

// All tables. Once the names are checked only their lengths are asked, and the places of the sections take the room of theirs.
fn checked(lent: &StageTables, output: &mut SplitOutput) -> Result<(), Refusal>
    ensures gives { GivesIn (tables_outcome lent.now (length output.old.splits.now)) result output.old output.new }
    ensures lent { SameLent output.old output.new }
{
    let columns = &mut NameArrays::new();
    // "4,096 names"
    columns.check(lent.name_ends, lent.name_bytes, 4096)?;
    let named = &columns.lengths[..lent.name_ends.len() / 2];
    // "64 sections"
    let heads = sections_table(named, lent.sections, 64, &mut columns.places)?;
    from_splits(named, &heads, lent, output)
}

// The entry: the merged split table or a refusal, and every byte of the outputs.
pub fn add_splits(
    name_ends: &[u8],
    name_bytes: &[u8],
    sections: &[u8],
    splits: &[u8],
    partials: &[u8],
    out_splits: &mut [u8],
    counts: &mut [u8],
) -> u64
    ensures { Leaves (add_splits_of name_ends.now name_bytes.now sections.now splits.now partials.now (length out_splits.old))
        (length out_splits.old) (length counts.old) result out_splits.new counts.new }
{
    let lent = StageTables {
        name_ends,
        name_bytes,
        sections,
        partials,
        splits,
        ..NO_TABLES
    };
    let mut output = SplitOutput {
        splits: out_splits,
        counts,
    };
    let a = checked(&lent, &mut output);
    finish(a, &mut output)
}
