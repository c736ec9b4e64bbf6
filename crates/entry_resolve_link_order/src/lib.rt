// The entry `resolve_link_order` behind its C name: the checks of its tables, the stage, and what is left in the lent outputs. The columns that the checks and
// the stage fill are local.
#![tactic(auto)]

ghost use Rattle.std.specs.Prelude.{length};
ghost use Rattle.stage_tables.specs.StageTables.{stage_splits, stage_units};
ghost use Rattle.entry_resolve_link_order.specs.Entry.{resolve_of, Leaves};
ghost use Rattle.entry_resolve_link_order.specs.Lines.{from_splits_in, resolve_in, ResolvesIn, SectionsTakenIn};

use lent_tables::{NO_TABLES, StageTables};
use link_graph::LinkTables;
use name_table::NameArrays;
use names::Names;
use obj::{Table, word_of};
use order::{Unlinked, answer_of, kept, ordered};
use outputs::{clear_from, put_count};
use splits::SplitTable;
use stage_splits::take_split_columns;
use stage_tables::{sections_table, units_table};

// The splits, the units, and then the stage. `places` is for the places of the splits, and then of the units.
fn with_splits(
    heads: &Table,
    names: &Names,
    lent: &StageTables,
    out: &mut [u8],
) -> Result<usize, Unlinked>
    requires { SectionsTakenIn heads.now names.now }
    ensures { ResolvesIn lent.now (from_splits_in heads.now names.now lent.now (length out.old)) result out.old out.new }
{
    let mut places = [0u32; 1024];
    // "1,024 splits"
    let mut table = SplitTable {
        starts: &mut [0u32; 1024],
        ends: &mut [0u32; 1024],
        units: &mut [0u16; 1024],
        rest: &mut [0u64; 1024],
        count: 0,
        room: 1024,
    };
    take_split_columns(names.lengths, heads, lent.splits, &mut places, &mut table)?;
    // "1,024 units"
    let units = units_table(names.lengths, lent.units, 1024, &mut places)?;
    let tables = LinkTables {
        splits: table.columns(),
        heads: *heads,
        names: *names,
        units,
    };
    ordered(&tables, out)
}

// All tables: the names, the sections, and what comes after them.
fn checked(lent: &StageTables, out: &mut [u8]) -> Result<usize, Unlinked>
    ensures { ResolvesIn lent.now (resolve_in lent.now (length out.old)) result out.old out.new }
{
    let mut columns = NameArrays::new();
    // "4,096 names"
    columns.check(lent.name_ends, lent.name_bytes, 4096)?;
    let names = columns.names(lent.name_ends, lent.name_bytes);
    let mut places = [0u32; 64];
    // "64 sections"
    let heads = sections_table(names.lengths, lent.sections, 64, &mut places)?;
    with_splits(&heads, &names, lent, out)
}

// The entry: an order, a cycle or a refusal, and every byte of the outputs.
pub fn resolve_link_order(
    name_ends: &[u8],
    name_bytes: &[u8],
    sections: &[u8],
    splits: &[u8],
    units: &[u8],
    out: &mut [u8],
    counts: &mut [u8],
) -> u64
    ensures { Leaves (stage_splits splits.now) (stage_units units.now)
        (resolve_of name_ends.now name_bytes.now sections.now splits.now units.now (length out.old))
        (length out.old) (length counts.old) result out.new counts.new }
{
    let r = checked(
        &StageTables {
            name_ends,
            name_bytes,
            sections,
            splits,
            units,
            ..NO_TABLES
        },
        out,
    );
    let k = kept(r);
    clear_from(out, 8 * k);
    clear_from(counts, 0);
    put_count(counts, 0, k as u16);
    word_of(answer_of(r))
}
