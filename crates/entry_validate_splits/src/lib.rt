// The entry `validate_splits` behind its C name: the checks of its tables, then the check of the splits. The columns that the checks fill are local.
#![tactic(auto)]

ghost use Rattle.std.specs.Prelude.{◌≡◌};
ghost use Rattle.obj.specs.Answers.{meaning, outcome_word};
ghost use Rattle.tables.specs.Lent.{HeadsHeld};
ghost use Rattle.symbol_order.specs.Order.{Order};
ghost use Rattle.entry_validate_splits.specs.Entry.{validate_of};
ghost use Rattle.entry_validate_splits.specs.Lines.{from_splits_in, from_symbols_in, validate_in};

use lent_tables::{NO_TABLES, StageTables};
use name_table::NameArrays;
use names::Names;
use obj::{Refusal, Table, word_of};
use sections::Obj;
use splits::SplitTable;
use stage_sections::SymbolArrays;
use stage_splits::take_split_columns;
use stage_tables::sections_table;
use validate::validate;

// The splits, and the check.
fn with_splits(obj: &Obj, splits: &[u8]) -> Result<(), Refusal>
    requires { HeadsHeld obj.now.heads
        × Order obj.now.symbols.bytes.now obj.now.symbols.places.now obj.now.order.now }
    ensures { meaning result ≡ from_splits_in obj.now.names.lengths.now obj.now.heads obj.now.symbols splits.now }
{
    let mut places = [0u32; 1024];
    let mut table = SplitTable {
        starts: &mut [0u32; 1024],
        ends: &mut [0u32; 1024],
        units: &mut [0u16; 1024],
        rest: &mut [0u64; 1024],
        count: 0,
        room: 1024,
    };
    take_split_columns(
        obj.names.lengths,
        &obj.heads,
        splits,
        &mut places,
        &mut table,
    )?;
    validate(&obj.symbols, obj.order, &table.columns())
}

// The symbols with their order, and the tables after them.
fn with_symbols(names: &Names, heads: &Table, lent: &StageTables) -> Result<(), Refusal>
    requires { HeadsHeld heads.now }
    ensures { meaning result ≡ from_symbols_in names.now.lengths.now heads.now lent.now }
{
    let mut symbols = SymbolArrays::new();
    let obj = symbols.take(names, heads, lent.symbols)?;
    // a function of its own, so that the order is made without the columns of the splits on the stack
    with_splits(&obj, lent.splits)
}

// All tables: the names, the sections, and what comes after them.
fn checked(lent: &StageTables) -> Result<(), Refusal>
    ensures { meaning result ≡ validate_in lent.now }
{
    let mut columns = NameArrays::new();
    columns.check(lent.name_ends, lent.name_bytes, 4096)?;
    let names = columns.names(lent.name_ends, lent.name_bytes);
    let mut places = [0u32; 64];
    let heads = sections_table(names.lengths, lent.sections, 64, &mut places)?;
    with_symbols(&names, &heads, lent)
}

// The entry: 0, or the first refusal of the tables or of the check.
pub fn validate_splits(
    name_ends: &[u8],
    name_bytes: &[u8],
    sections: &[u8],
    symbols: &[u8],
    splits: &[u8],
) -> u64
    ensures { result ≡ outcome_word (validate_of name_ends.now name_bytes.now sections.now symbols.now splits.now) }
{
    word_of(checked(&StageTables {
        name_ends,
        name_bytes,
        sections,
        symbols,
        splits,
        ..NO_TABLES
    }))
}
