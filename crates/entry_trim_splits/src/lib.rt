// The entry `trim_splits` behind its C name: the checks of its tables, the trim, and what is left in the lent outputs. An array stands in the lowest function that needs
// it, which lends it to the check and reads the table that this gives.
#![tactic(auto)]

ghost use Rattle.std.specs.Prelude.{length};
ghost use Rattle.name_table.specs.Columns.{ReadableIn};
ghost use Rattle.symbol_order.specs.Order.{symbol_of};
ghost use Rattle.symbols.specs.Sound.{Sound};
ghost use Rattle.sections.specs.Image.{TablesIn};
ghost use Rattle.stage_splits.specs.StageSplits.{Leaves};
ghost use Rattle.stage_splits.specs.Output.{GivesIn, SameLent};
ghost use Rattle.sections.specs.Sections.{KeptIn};
ghost use Rattle.entry_trim_splits.specs.Entry.{trim_of};
ghost use Rattle.tables.specs.Lent.{HeadsHeld};
ghost use Rattle.entry_trim_splits.specs.Lent.{tables_outcome, splits_outcome, symbols_outcome, sections_outcome, HeadedIn};

use lent_tables::{NO_TABLES, StageTables};
use name_table::NameArrays;
use names::Names;
use obj::{Refusal, Table};
use sections::Obj;
use splits::{SplitEnds, SplitTable};
use stage_sections::{SectionArrays, SymbolArrays};
use stage_splits::{SplitOutput, finish, give_splits, room_of, take_split_columns};
use trim::trim;

// The splits and the trim of their table, which is then given.
fn from_splits(
    obj: &Obj,
    image: &Table,
    splits: &[u8],
    output: &mut SplitOutput,
) -> Result<(), Refusal>
    requires { TablesIn obj.now
        × Sound (symbol_of obj.now.symbols.bytes.now obj.now.symbols.places.now) (length obj.now.symbols.places.now)
        × HeadsHeld obj.now.heads
        × KeptIn obj.now image.now }
    ensures gives { GivesIn (splits_outcome obj.now image.now splits.now (length output.old.splits.now)) result output.old output.new }
    ensures lent { SameLent output.old output.new }
{
    let mut places = [0u32; 1024];
    let mut starts = [0u32; 1024];
    let mut ends = [0u32; 1024];
    let mut units = [0u16; 1024];
    let mut rest = [0u64; 1024];
    let mut falls = [0u32; 1024];
    let mut table = SplitTable {
        starts: &mut starts,
        ends: &mut ends,
        units: &mut units,
        rest: &mut rest,
        count: 0,
        room: room_of(output.splits.len()),
    };
    take_split_columns(
        obj.names.lengths,
        &obj.heads,
        splits,
        &mut places,
        &mut table,
    )?;
    let count = table.count;
    let mut trimmed = SplitEnds {
        starts: &starts,
        ends: &mut ends,
        units: &units,
        rest: &rest,
        count,
    };
    trim(obj, image, &mut trimmed, &mut falls)?;
    give_splits(&trimmed.columns(), output);
    Ok(())
}

// The symbols with their order, and the tables after them.
fn from_symbols(
    names: &Names,
    heads: &Table,
    image: &Table,
    lent: &StageTables,
    output: &mut SplitOutput,
) -> Result<(), Refusal>
    requires { ReadableIn names.now × HeadedIn heads.now image.now names.now }
    ensures gives { GivesIn (symbols_outcome names.now heads.now image.now lent.now (length output.old.splits.now)) result output.old output.new }
    ensures lent { SameLent output.old output.new }
{
    let mut symbols = SymbolArrays::new();
    let obj = symbols.take(names, heads, lent.symbols)?;
    from_splits(&obj, image, lent.splits, output)
}

// The sections and the places of their bytes, and the tables after them.
fn from_sections(names: &Names, lent: &StageTables, output: &mut SplitOutput) -> Result<(), Refusal>
    requires { ReadableIn names.now }
    ensures gives { GivesIn (sections_outcome names.now lent.now (length output.old.splits.now)) result output.old output.new }
    ensures lent { SameLent output.old output.new }
{
    let mut sections = SectionArrays::new();
    let headed = sections.take(
        names.lengths,
        lent.sections,
        lent.section_places,
        lent.image,
    )?;
    from_symbols(names, &headed.heads, &headed.image, lent, output)
}

// All tables.
fn checked(lent: &StageTables, output: &mut SplitOutput) -> Result<(), Refusal>
    ensures gives { GivesIn (tables_outcome lent.now (length output.old.splits.now)) result output.old output.new }
    ensures lent { SameLent output.old output.new }
{
    let mut columns = NameArrays::new();
    columns.check(lent.name_ends, lent.name_bytes, 4096)?;
    from_sections(
        &columns.names(lent.name_ends, lent.name_bytes),
        lent,
        output,
    )
}

// The entry: the trimmed splits or a refusal, and every byte of the outputs.
pub fn trim_splits(
    name_ends: &[u8],
    name_bytes: &[u8],
    sections: &[u8],
    section_places: &[u8],
    image: &[u8],
    symbols: &[u8],
    splits: &[u8],
    out: &mut [u8],
    counts: &mut [u8],
) -> u64
    ensures { Leaves
        (trim_of name_ends.now name_bytes.now sections.now section_places.now image.now symbols.now splits.now (length out.old))
        (length out.old) (length counts.old) result out.new counts.new }
{
    let lent = StageTables {
        name_ends,
        name_bytes,
        sections,
        section_places,
        image,
        symbols,
        splits,
        ..NO_TABLES
    };
    let mut output = SplitOutput {
        splits: out,
        counts,
    };
    let a = checked(&lent, &mut output);
    finish(a, &mut output)
}
