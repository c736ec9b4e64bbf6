// The entry `mend_splits` behind its C name: the checks of its tables, the mending of the split table, and what is left in the lent outputs.
// The columns are local; each stands in the lowest function that needs it.
#![tactic(auto)]

ghost use Rattle.std.specs.Prelude.{◌≡◌, length};
ghost use Rattle.obj.specs.Answers.{meaning};
ghost use Rattle.tables.specs.Records.{sections_in};
ghost use Rattle.mend.specs.Mend.{section_ends_of};
ghost use Rattle.mend_outputs.specs.Outputs.{Leaves};
ghost use Rattle.entry_mend_splits.specs.Entry.{mend_splits_of, NamesTaken};
ghost use Rattle.mend_outputs.specs.Lent.{GivesIn, SameLent};
ghost use Rattle.tables.specs.Lent.{HeadsHeld};
ghost use Rattle.entry_mend_splits.specs.Lent.{splits_outcome, sections_outcome};

use lent_tables::{NO_TABLES, StageTables};
use mend::{fill_section_ends, mend_table};
use mend_outputs::{MendOutputs, finish, give_mended};
use name_table::{NameColumns, check_names};
use obj::{Refusal, Table};
use splits::{SplitEnds, SplitTable};
use stage_splits::{room_of, take_split_columns};
use stage_tables::sections_table;

// Names, checked, and how many bytes each has at the front of the column. Only that is asked later: the other columns, 40 kB of the stack, are gone before those
// of the splits come.
fn take_lengths(
    name_ends: &[u8],
    name_bytes: &[u8],
    lengths: &mut [u8; 4096],
) -> Result<(), Refusal>
    ensures { NamesTaken (meaning result) name_ends.now name_bytes.now lengths.new }
{
    let mut places = [0u32; 4096];
    let mut heads = [0u16; 8192];
    let mut chain = [0u16; 4096];
    let mut columns = NameColumns {
        places: &mut places,
        lengths,
        heads: &mut heads,
        chain: &mut chain,
    };
    // "4,096 names"
    check_names(name_ends, name_bytes, 4096, &mut columns)
}

// The split table, its mending and the outputs. `section_ends` says where each section ends.
fn from_splits(
    lengths: &[u8],
    heads: &Table,
    section_ends: &[u32],
    splits: &[u8],
    outputs: &mut MendOutputs,
) -> Result<(), Refusal>
    requires { HeadsHeld heads.now × (section_ends.now ≡ section_ends_of (sections_in heads.now.bytes.now heads.now.places.now)) }
    ensures gives { GivesIn (splits_outcome lengths.now heads.now splits.now (length outputs.old.splits.now) (length outputs.old.lines.now)) result outputs.old outputs.new }
    ensures lent { SameLent outputs.old outputs.new }
{
    let mut places = [0u32; 1024];
    let mut starts = [0u32; 1024];
    let mut ends = [0u32; 1024];
    let mut units = [0u16; 1024];
    let mut rest = [0u64; 1024];
    let mut table = SplitTable {
        starts: &mut starts,
        ends: &mut ends,
        units: &mut units,
        rest: &mut rest,
        count: 0,
        room: room_of(outputs.splits.len()),
    };
    take_split_columns(lengths, heads, splits, &mut places, &mut table)?;
    let count = table.count;
    let mut mended = SplitEnds {
        starts: &starts,
        ends: &mut ends,
        units: &units,
        rest: &rest,
        count,
    };
    let r = mend_table(&mut mended, section_ends, outputs.lines);
    give_mended(r, &mended.columns(), outputs)
}

// The sections and where each ends, and the split table after them.
fn from_sections(
    lengths: &[u8],
    lent: &StageTables,
    outputs: &mut MendOutputs,
) -> Result<(), Refusal>
    ensures gives { GivesIn (sections_outcome lengths.now lent.now.sections.now lent.now.splits.now (length outputs.old.splits.now) (length outputs.old.lines.now)) result outputs.old outputs.new }
    ensures lent { SameLent outputs.old outputs.new }
{
    let mut places = [0u32; 64];
    let mut section_ends = [0u32; 64];
    // "64 sections"
    let heads = sections_table(lengths, lent.sections, 64, &mut places)?;
    let n = heads.places.len();
    fill_section_ends(&heads, &mut section_ends);
    from_splits(lengths, &heads, &section_ends[..n], lent.splits, outputs)
}

// All tables, and the outputs where they pass.
fn checked(lent: &StageTables, outputs: &mut MendOutputs) -> Result<(), Refusal>
    ensures gives { GivesIn (mend_splits_of lent.now.name_ends.now lent.now.name_bytes.now lent.now.sections.now lent.now.splits.now (length outputs.old.splits.now) (length outputs.old.lines.now)) result outputs.old outputs.new }
    ensures lent { SameLent outputs.old outputs.new }
{
    let mut lengths = [0u8; 4096];
    take_lengths(lent.name_ends, lent.name_bytes, &mut lengths)?;
    from_sections(&lengths[..lent.name_ends.len() / 2], lent, outputs)
}

// The entry: the mended split table with its lines, or a refusal, and every byte of the outputs.
pub fn mend_splits(
    name_ends: &[u8],
    name_bytes: &[u8],
    sections: &[u8],
    splits: &[u8],
    out_splits: &mut [u8],
    lines: &mut [u8],
    counts: &mut [u8],
) -> u64
    ensures { Leaves (mend_splits_of name_ends.now name_bytes.now sections.now splits.now (length out_splits.old) (length lines.old))
        out_splits.old lines.old counts.old result out_splits.new lines.new counts.new }
{
    let mut outputs = MendOutputs {
        splits: out_splits,
        lines,
        counts,
    };
    let lent = StageTables {
        name_ends,
        name_bytes,
        sections,
        splits,
        ..NO_TABLES
    };
    let a = checked(&lent, &mut outputs);
    finish(a, &mut outputs)
}
