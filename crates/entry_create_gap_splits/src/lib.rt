// The entry `create_gap_splits` behind its C name: the checks of its tables, the filling of gaps, and what is left in the lent outputs. The columns that the checks
// fill are local.
#![tactic(auto)]

ghost use Rattle.std.specs.Prelude.{length};
ghost use Rattle.lists.specs.Outcome.{Outcome};
ghost use Rattle.gap_splits.specs.Entering.{Filled};
ghost use Rattle.stage_gaps.specs.StageGaps.{NamesIn, HeadedIn, SpaceIn, GivesIn, SameLent};
ghost use Rattle.entry_create_gap_splits.specs.Entry.{gap_splits_of, tables_outcome, symbols_outcome, sections_outcome, Leaves, LeavesIn};

use kept_output::clear_refused;
use lent_tables::{NO_TABLES, StageTables};
use name_table::{NameArrays, start_of};
use names::{NameIndex, Names, Room};
use obj::{Refusal, Table, word_of};
use stage_gaps::{GapOutputs, with_splits};
use stage_names::{bytes_room, fit_names, names_room};
use stage_sections::{SectionArrays, SymbolArrays};

// The symbols with their order, and the tables after them.
fn from_symbols(
    names: &Names,
    index: &NameIndex,
    heads: &Table,
    image: &Table,
    lent: &StageTables,
    most: Room,
    outputs: &mut GapOutputs,
) -> Result<(), Refusal>
    requires { NamesIn names.now index.now
        × HeadedIn heads.now image.now names.now
        × SpaceIn names.now most.names most.bytes outputs.old }
    ensures gives { GivesIn (symbols_outcome names.now heads.now image.now lent.now most.names most.bytes outputs.old) result outputs.old outputs.new }
    ensures lent { SameLent outputs.old outputs.new }
{
    let mut symbols = SymbolArrays::new();
    let obj = symbols.take(names, heads, lent.symbols)?;
    with_splits(&obj, index, image, lent.splits, most, outputs)
}

// The sections and the places of their bytes, and the tables after them.
fn from_sections(
    names: &Names,
    index: &NameIndex,
    lent: &StageTables,
    most: Room,
    outputs: &mut GapOutputs,
) -> Result<(), Refusal>
    requires { NamesIn names.now index.now × SpaceIn names.now most.names most.bytes outputs.old }
    ensures gives { GivesIn (sections_outcome names.now lent.now most.names most.bytes outputs.old) result outputs.old outputs.new }
    ensures lent { SameLent outputs.old outputs.new }
{
    let mut sections = SectionArrays::new();
    let headed = sections.take(
        names.lengths,
        lent.sections,
        lent.section_places,
        lent.image,
    )?;
    from_symbols(
        names,
        index,
        &headed.heads,
        &headed.image,
        lent,
        most,
        outputs,
    )
}

// All tables, from the names on.
fn checked(lent: &StageTables, outputs: &mut GapOutputs) -> Result<(), Refusal>
    ensures gives { GivesIn (tables_outcome lent.now outputs.old) result outputs.old outputs.new }
    ensures lent { SameLent outputs.old outputs.new }
{
    let most = Room {
        names: names_room(outputs.ends.len()),
        bytes: bytes_room(outputs.bytes.len()),
    };
    fit_names(lent.name_ends, most)?;
    let mut columns = NameArrays::new();
    columns.check(lent.name_ends, lent.name_bytes, 4096)?;
    let n = lent.name_ends.len() / 2;
    let end = start_of(lent.name_ends, n);
    from_sections(
        &columns.names(lent.name_ends, lent.name_bytes),
        &columns.index(),
        lent,
        Room {
            names: most.names - n,
            bytes: most.bytes - end,
        },
        outputs,
    )
}

// The end of the entry: its answer as a word, and all outputs zero after a refusal.
fn finish(a: Result<(), Refusal>, outputs: &mut GapOutputs) -> u64
    ensures leaves { (o : Outcome Filled) → GivesIn o a outputs.old outputs.old → LeavesIn o result outputs.old outputs.new }
    ensures lent { SameLent outputs.old outputs.new }
{
    clear_refused(a, outputs.ends);
    clear_refused(a, outputs.bytes);
    clear_refused(a, outputs.splits);
    clear_refused(a, outputs.counts);
    word_of(a)
}

// The entry: the filled tables or a refusal, and every byte of the outputs.
pub fn create_gap_splits(
    name_ends: &[u8],
    name_bytes: &[u8],
    sections: &[u8],
    section_places: &[u8],
    image: &[u8],
    symbols: &[u8],
    splits: &[u8],
    out_ends: &mut [u8],
    out_bytes: &mut [u8],
    out: &mut [u8],
    counts: &mut [u8],
) -> u64
    ensures { Leaves
        (gap_splits_of name_ends.now name_bytes.now sections.now section_places.now image.now symbols.now splits.now (length out_ends.old) (length out_bytes.old) (length out.old))
        (length out_ends.old) (length out_bytes.old) (length out.old) (length counts.old) result out_ends.new out_bytes.new out.new counts.new }
{
    let mut outputs = GapOutputs {
        ends: out_ends,
        bytes: out_bytes,
        splits: out,
        counts,
    };
    let a = checked(
        &StageTables {
            name_ends,
            name_bytes,
            sections,
            section_places,
            image,
            symbols,
            splits,
            ..NO_TABLES
        },
        &mut outputs,
    );
    finish(a, &mut outputs)
}
