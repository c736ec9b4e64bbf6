// The symbols that splits are checked against. A struct with a ghost field imports all that its file does, so it stands in a file of its own.
ghost use Rattle.symbol_order.specs.Order.{Order};

use obj::Table;

// The symbols with their order; each of them passed its check.
#[derive(Clone, Copy)]
pub struct CheckedSymbols<'b, 'p, 'o> {
    pub table: Table<'b, 'p>,
    pub order: &'o [u16],
    pub ghost ordered: { Order table.bytes.now table.places.now order.now },
}
