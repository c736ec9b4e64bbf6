// The entry `split_file` behind its C name: the run of a record file over columns of its own, and what is left in the lent outputs.
#![tactic(auto)]

ghost use Rattle.std.specs.Prelude.{◌≡◌, length};
ghost use Rattle.run_outputs.specs.Kept.{sizes_of};
ghost use Rattle.run_outputs.specs.Outputs.{sizes_in, SameOutputs};
ghost use Rattle.stage_splits.specs.StageSplits.{room_of};
ghost use Rattle.run_file.specs.RunFile.{Lent};
ghost use Rattle.entry_split_file.specs.Entry.{split_file_of, Leaves, LeavesIn};

use gap_splits::AddedNames;
use names::Room;
use run::RunTables;
use run_file::run_file;
use run_load::FileColumns;
use run_outputs::{RunOutputs, kept_of, lay, word_for};
use splits::SplitTable;
use stage_splits::room_of;

// The run in lent columns, and its outputs.
fn in_columns(
    file: &[u8],
    columns: &mut FileColumns,
    table: &mut SplitTable,
    added: &mut AddedNames,
    outputs: &mut RunOutputs,
) -> u64
    requires { Lent table.old added.old
        × (table.old.room ≡ room_of (length outputs.old.splits.now)) }
    ensures leaves { LeavesIn (split_file_of file.now (sizes_in outputs.old)) result outputs.old outputs.new }
    ensures lent { SameOutputs outputs.old outputs.new }
{
    let most = Room {
        names: outputs.ends.len() / 2,
        bytes: outputs.bytes.len(),
    };
    let mut tables = RunTables {
        units: &mut *outputs.units,
        pieces: &mut *outputs.pieces,
        entries: &mut *outputs.entries,
        offsets: &mut *outputs.offsets,
    };
    let r = run_file(file, columns, table, added, most, &mut tables);
    let ran = r.ran;
    let kept = kept_of(ran);
    // none after a refusal
    table.count = kept.splits;
    lay(kept, &added.names(), &table.columns(), outputs);
    word_for(ran)
}

// The same, with columns of its own for the split table and the names that are added.
fn with_tables(file: &[u8], columns: &mut FileColumns, outputs: &mut RunOutputs) -> u64
    ensures leaves { LeavesIn (split_file_of file.now (sizes_in outputs.old)) result outputs.old outputs.new }
    ensures lent { SameOutputs outputs.old outputs.new }
{
    let mut table = SplitTable {
        starts: &mut [0u32; 1024],
        ends: &mut [0u32; 1024],
        units: &mut [0u16; 1024],
        rest: &mut [0u64; 1024],
        count: 0,
        room: room_of(outputs.splits.len()),
    };
    let mut added = AddedNames {
        bytes: &mut [0u8; 65535],
        places: &mut [0u32; 4096],
        lengths: &mut [0u8; 4096],
        count: 0,
        used: 0,
        most: Room {
            names: 4096,
            bytes: 65535,
        },
    };
    in_columns(file, columns, &mut table, &mut added, outputs)
}

// The same, with columns of its own for the file, as `run_load::FileColumns` says.
fn with_columns(file: &[u8], outputs: &mut RunOutputs) -> u64
    ensures leaves { LeavesIn (split_file_of file.now (sizes_in outputs.old)) result outputs.old outputs.new }
    ensures lent { SameOutputs outputs.old outputs.new }
{
    let mut places = [0u32; 14464];
    let mut lengths = [0u8; 4096];
    let mut heads = [0u16; 8192];
    let mut chain = [0u16; 4096];
    let mut images = [0u32; 64];
    let mut order = [0u16; 4096];
    let mut columns = FileColumns {
        places: &mut places,
        lengths: &mut lengths,
        heads: &mut heads,
        chain: &mut chain,
        images: &mut images,
        order: &mut order,
    };
    with_tables(file, &mut columns, outputs)
}

// The entry: the run's outputs or a refusal, and every byte of them.
pub fn split_file(
    file: &[u8],
    out_ends: &mut [u8],
    out_bytes: &mut [u8],
    out_splits: &mut [u8],
    out_units: &mut [u8],
    pieces: &mut [u8],
    entries: &mut [u8],
    offsets: &mut [u8],
    counts: &mut [u8],
) -> u64
    ensures { Leaves
        (split_file_of file.now (sizes_of out_ends.old out_bytes.old out_splits.old out_units.old pieces.old entries.old offsets.old counts.old))
        (sizes_of out_ends.old out_bytes.old out_splits.old out_units.old pieces.old entries.old offsets.old counts.old)
        result out_ends.new out_bytes.new out_splits.new out_units.new pieces.new entries.new offsets.new counts.new }
{
    let mut outputs = RunOutputs {
        ends: out_ends,
        bytes: out_bytes,
        splits: out_splits,
        units: out_units,
        pieces,
        entries,
        offsets,
        counts,
    };
    with_columns(file, &mut outputs)
}
