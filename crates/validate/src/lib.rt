// Check of a split table (`validate_splits`): the splits against one another and against the symbols, 50 to 53.
#![tactic(auto)]

ghost use Rattle.std.specs.Prelude.{◌≡◌, ltb, length};
ghost use Rattle.obj.specs.Answers.{meaning};
ghost use Rattle.symbol_order.specs.Order.{symbol_of, Order};
ghost use Rattle.splits.specs.Table.{rows_of};
ghost use Rattle.validate.specs.Check.{end_below, validate_one as validateSplit, validate as validateTable};

use obj::{Refusal, Split, Symbol, Table, refuse};
use splits::{SplitColumns, row};
use symbols::last_below;

mod checked_symbols;

use checked_symbols::CheckedSymbols;

// Whether an address of a section lies inside "the last sized unstripped symbol below" it.
fn is_inside(symbols: &CheckedSymbols, section: u16, address: u32) -> bool
    ensures { result
        ≡ ltb address (end_below (symbol_of symbols.now.table.bytes.now symbols.now.table.places.now) (length symbols.now.table.places.now) section address) }
{
    let table = &symbols.table;
    // a `match`: `record` asks that there is a symbol i, so the closure of an `is_some_and` needs clauses of its own, which are longer than the two arms
    match last_below(
        table.bytes,
        table.places,
        symbols.order,
        false,
        section,
        address,
    ) {
        Some(i) => {
            let y = table.record::<Symbol>(i);
            u64::from(address) < y.end()
        }
        None => false,
    }
}

// One split, after a split of section `before` that ends at `last`.
fn validate_one(symbols: &CheckedSymbols, before: u16, last: u32, s: Split) -> Result<(), Refusal>
    ensures { meaning result ≡ validateSplit (symbol_of symbols.now.table.bytes.now symbols.now.table.places.now) (length symbols.now.table.places.now) before last s }
{
    if (s.section == before) & (s.start < last) {
        return refuse(50, s.section, s.start);
    }
    if (s.end == 0) | (s.end < s.start) {
        return refuse(51, s.section, s.start);
    }
    if is_inside(symbols, s.section, s.start) {
        return refuse(52, s.section, s.start);
    }
    if is_inside(symbols, s.section, s.end) {
        return refuse(53, s.section, s.start);
    }
    Ok(())
}

// The splits in the table's order.
pub fn validate(table: &Table, order: &[u16], splits: &SplitColumns) -> Result<(), Refusal>
    requires { Order table.now.bytes.now table.now.places.now order.now }
    ensures { meaning result ≡ validateTable (symbol_of table.now.bytes.now table.now.places.now) (length table.now.places.now) (rows_of splits.now) }
{
    let symbols = CheckedSymbols {
        table: *table,
        order,
    };
    let mut before: u16 = 0;
    let mut last: u32 = 0;
    for i in 0..splits.count {
        let s = row(splits, i);
        validate_one(&symbols, before, last, s)?;
        before = s.section;
        last = s.end;
    }
    Ok(())
}
