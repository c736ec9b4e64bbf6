// The split table of a stage that gives one back: taken into columns with all its checks, and laid into the lent output with its count; after a refusal all
// outputs are zero. What the entries of merge, common, gap and trim have in common.
#![tactic(auto)]

mod output;

ghost use Rattle.std.specs.Prelude.{◌≡◌, ◌*◌, ◌≤◌, List, length};
ghost use Rattle.lists.specs.Outcome.{Outcome};
ghost use Rattle.lists.specs.Tables.{laid};
ghost use Rattle.obj.specs.Answers.{meaning};
ghost use Rattle.obj.specs.declared.Split.{Split};
ghost use Rattle.tables.specs.Tables.{AllHeld};
ghost use Rattle.tables.specs.Records.{sections_in};
ghost use Rattle.stage_tables.specs.StageTables.{splits_check, Room};
ghost use Rattle.splits.specs.Table.{rows_of as table_of, rows_in, SameLent as SameTable};
ghost use Rattle.splits.specs.Bytes.{table_bytes};
ghost use Rattle.obj.specs.Records.{split_width};
ghost use Rattle.stage_splits.specs.StageSplits.{room_of, Taken};
ghost use Rattle.stage_splits.specs.Output.{LaidIn, GivesIn, LeavesIn, SameLent};

use kept_output::clear_refused;
use obj::{Refusal, SPLIT_BYTES, Table, word_of};
pub use output::SplitOutput;
use outputs::{clear_from, put_counts, room_for};
use splits::{SplitColumns, SplitTable, load, store};
use stage_tables::splits_table;

// How many splits a stage may hold and give back in an output of `size` bytes.
#[tactic(auto, unfolding(crate::specs::StageSplits::room_of, outputs::specs::Room::room_for))]
pub fn room_of(size: usize) -> usize
    ensures { result ≡ room_of size }
{
    room_for(1024, SPLIT_BYTES, size)
}

// Splits in the columns, at most as many as they have room for: "7 split: ..; in stage tables also ..". `places` is room for the places of the records.
pub fn take_split_columns(
    lengths: &[u8],
    heads: &Table,
    b: &[u8],
    places: &mut [u32],
    table: &mut SplitTable,
) -> Result<(), Refusal>
    requires { AllHeld 15 heads.now.bytes.now heads.now.places.now × Room table.old.room places.old }
    ensures taken { Taken (meaning result) (splits_check table.old.room lengths.now (sections_in heads.now.bytes.now heads.now.places.now) b.now) b.now
        (rows_in table.new) }
    ensures lent { SameTable table.old table.new }
{
    let splits = splits_table(lengths, heads, b, table.room, places)?;
    load(&splits, table);
    Ok(())
}

// The rows in the output, and zeros after them.
pub fn put_splits(splits: &SplitColumns, out: &mut [u8])
    requires { split_width * splits.now.count ≤ length out.old }
    ensures { out.new ≡ laid (length out.old) (table_bytes (table_of splits.now)) }
{
    store(splits, out);
    clear_from(out, SPLIT_BYTES * splits.count);
}

// The same, and their number in the counts.
pub fn give_splits(splits: &SplitColumns, output: &mut SplitOutput)
    requires { (split_width * splits.now.count ≤ length output.old.splits.now) × (splits.now.count ≤ 1024) }
    ensures laid { LaidIn (table_of splits.now) output.old output.new }
    ensures lent { SameLent output.old output.new }
{
    put_splits(splits, output.splits);
    clear_from(output.counts, 0);
    put_counts(output.counts, &[splits.count as u16]);
}

// The end of an entry: its answer as a word, and all outputs zero after a refusal.
pub fn finish(a: Result<(), Refusal>, output: &mut SplitOutput) -> u64
    ensures left { (o : Outcome (List Split)) → GivesIn o a output.old output.old → LeavesIn o result output.old output.new }
    ensures lent { SameLent output.old output.new }
{
    clear_refused(a, output.splits);
    clear_refused(a, output.counts);
    word_of(a)
}
