// The symbols of a stage entry: the table's checks, then the symbol order; and the places of the sections' bytes as a column.
#![tactic(auto)]

ghost use Rattle.std.specs.Prelude.{◌≤◌, length};
ghost use Rattle.tables.specs.Tables.{AllHeld};
ghost use Rattle.tables.specs.Records.{sections_in, image_places_of};
ghost use Rattle.stage_tables.specs.StageTables.{symbols_check};
ghost use Rattle.stage_symbols.specs.StageSymbols.{Room, Ordered, TakenInOrder, Placed};

use fields::Field;
use obj::{Record, Refusal, Symbol, Table};
use stage_tables::take_symbols;
use symbol_order::make_order;

// The symbols of a table, and their order by address.
#[derive(Clone, Copy)]
pub struct OrderedSymbols<'b, 'p, 'o> {
    pub table: Table<'b, 'p>,
    pub order: &'o [u16],
}

// The symbols, "5 symbol: ..": their places in a lent column, their order in another, and how many symbols the order has: it is `order[..r]`. `names` is a count, `heads` are the
// sections at their places. The three slices are no columns of one table: a caller keeps the places and the order, and what the sort works in may hold anything.
pub fn take_symbol_order(
    names: usize,
    heads: &Table,
    symbols: &[u8],
    ceiling: usize,
    places: &mut [u32],
    order: &mut [u16],
    scratch: &mut [u16],
) -> Result<usize, Refusal>
    requires { AllHeld 15 heads.now.bytes.now heads.now.places.now × Room ceiling places.old order.old scratch.old }
    ensures { Ordered (symbols_check ceiling names (sections_in heads.now.bytes.now heads.now.places.now) symbols.now) symbols.now places.new order.new result }
{
    take_symbols(names, heads, symbols, ceiling, places)?;
    let n = symbols.len() / Symbol::WIDTH;
    let table = Table {
        bytes: symbols,
        places: &places[..n],
    };
    Ok(make_order(&table, order, scratch))
}

// The same, and the table with the order. The answer holds both columns, so what they hold afterwards is said above.
pub fn ordered_symbols<'b, 'p, 'o>(
    names: usize,
    heads: &Table,
    symbols: &'b [u8],
    ceiling: usize,
    places: &'p mut [u32],
    order: &'o mut [u16],
    scratch: &mut [u16],
) -> Result<OrderedSymbols<'b, 'p, 'o>, Refusal>
    requires { AllHeld 15 heads.now.bytes.now heads.now.places.now × Room ceiling places.old order.old scratch.old }
    ensures { TakenInOrder (symbols_check ceiling names (sections_in heads.now.bytes.now heads.now.places.now) symbols.now) symbols.now result }
{
    let n = take_symbol_order(names, heads, symbols, ceiling, places, order, scratch)?;
    Ok(OrderedSymbols {
        table: Table {
            bytes: symbols,
            places: &places[..symbols.len() / Symbol::WIDTH],
        },
        order: &order[..n],
    })
}

// The places of the sections' bytes, four bytes each, at the front of a column; as many as both have, and how many these are.
pub fn take_image_places(b: &[u8], column: &mut [u32]) -> usize
    ensures { Placed (image_places_of b.now) column.new result }
{
    let n = column.len().min(b.len() / 4);
    for (i, place) in column[..n].iter_mut().enumerate() {
        *place = u32::get(b, 4 * i);
    }
    n
}
