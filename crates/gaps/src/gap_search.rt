// What the gaps of a section are searched with. A struct with a ghost field imports all that its file does, so these stand in a file of their own.
ghost use Rattle.std.specs.Prelude.{◌≡◌, true, length};
ghost use Rattle.align.specs.Align.{good_align};
ghost use Rattle.symbol_order.specs.Order.{symbol_of, Order};
ghost use Rattle.symbols.specs.Sound.{Sound};
ghost use Rattle.gaps.specs.Found.{Clean, Markable};

use obj::Table;

// A section with its default alignment, and the symbols with their order.
#[derive(Clone, Copy)]
pub struct GapSection<'b, 'p, 'o> {
    pub symbols: Table<'b, 'p>,
    pub order: &'o [u16],
    pub section: u16,
    pub least: u32,
    pub ghost ordered: { Order symbols.bytes.now symbols.places.now order.now },
    pub ghost sound: { Sound (symbol_of symbols.bytes.now symbols.places.now) (length symbols.places.now) },
    pub ghost good: { good_align least ≡ true },
}

// The search for its gaps: a mark for each name, all 0 between two gaps.
#[derive(Drop)]
pub struct GapSearch<'b, 'p, 'o, 'm> {
    pub here: GapSection<'b, 'p, 'o>,
    pub marks: &'m mut [u8],
    pub ghost markable: { Markable (symbol_of here.symbols.bytes.now here.symbols.places.now) (length here.symbols.places.now) marks.now },
    pub ghost clean: { Clean marks.now },
}
