// The entry `check_tables` behind its C name: every stage table, "stage tables by kind .., each for 1, 2, then its kind's number". The columns that
// the checks fill are local.
#![tactic(auto)]

ghost use Rattle.std.specs.Prelude.{◌≡◌, ◌≤◌, length};
ghost use Rattle.obj.specs.Answers.{meaning, outcome_word};
ghost use Rattle.tables.specs.Tables.{AllHeld};
ghost use Rattle.entry_check_tables.specs.Entry.{tables_of};
ghost use Rattle.entry_check_tables.specs.Lines.{from_symbols_in, tables_in};

use lent_tables::{NO_TABLES, StageTables};
use name_table::NameArrays;
use obj::{Refusal, Table, word_of};
use stage_tables::{image_table, symbols_table, take_relocs, take_splits, take_units};
use tables::main_ceilings;

// The tables from the symbols on. `lengths` are those of the names, `heads` the sections at their places.
fn with_symbols(lengths: &[u8], heads: &Table, lent: &StageTables) -> Result<(), Refusal>
    requires { AllHeld 15 heads.now.bytes.now heads.now.places.now × (length heads.now.places.now ≤ 64) }
    ensures { meaning result ≡ from_symbols_in lengths.now heads.now lent.now }
{
    let most = main_ceilings();
    // the places of the table that is looked at, and a number of each section
    let mut places = [0u32; 4096];
    let mut floors = [0u32; 64];
    let symbols = symbols_table(
        lengths.len(),
        heads,
        lent.symbols,
        most.symbols,
        &mut places,
    )?;
    let count = symbols.places.len();
    take_relocs(
        heads,
        count,
        lent.relocs,
        most.relocations,
        &mut places,
        &mut floors,
    )?;
    take_splits(lengths, heads, lent.splits, most.splits, &mut places)?;
    take_units(lengths, lent.units, most.units, &mut places)
}

// All tables: the names, the sections, and what comes after them.
fn checked(lent: &StageTables) -> Result<(), Refusal>
    ensures { meaning result ≡ tables_in lent.now }
{
    let most = main_ceilings();
    let mut columns = NameArrays::new();
    columns.check(lent.name_ends, lent.name_bytes, most.names)?;
    let names = columns.names(lent.name_ends, lent.name_bytes);
    let mut places = [0u32; 64];
    let heads = image_table(
        names.lengths,
        lent.section_places,
        lent.image.len(),
        lent.sections,
        most.sections,
        &mut places,
    )?;
    with_symbols(names.lengths, &heads, lent)
}

// The entry: 0, or the first refusal of the tables.
pub fn check_tables(
    name_ends: &[u8],
    name_bytes: &[u8],
    sections: &[u8],
    section_places: &[u8],
    image: &[u8],
    symbols: &[u8],
    relocations: &[u8],
    splits: &[u8],
    units: &[u8],
) -> u64
    ensures { result ≡ outcome_word (tables_of name_ends.now name_bytes.now sections.now section_places.now image.now symbols.now relocations.now splits.now units.now) }
{
    word_of(checked(&StageTables {
        name_ends,
        name_bytes,
        sections,
        section_places,
        image,
        symbols,
        relocs: relocations,
        splits,
        units,
        ..NO_TABLES
    }))
}
