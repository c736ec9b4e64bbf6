// The symbols of a table, and their order by address.
ghost use Rattle.std.specs.Prelude.{◌≡◌, length, replicate};
ghost use Rattle.tables.specs.Tables.{AllHeld};
ghost use Rattle.tables.specs.Records.{sections_in};
ghost use Rattle.stage_tables.specs.StageTables.{symbols_check};
ghost use Rattle.stage_sections.specs.Arrays.{TakesSymbols};

use names::Names;
use obj::{Refusal, Table};
use sections::Obj;
use stage_symbols::ordered_symbols;

// Where each symbol's record lies in its table, and the order.
#[derive(Drop)]
pub struct SymbolArrays {
    pub places: [u32; 4096],
    pub order: [u16; 4096],
}

impl SymbolArrays {
    // No symbol.
    pub fn new() -> SymbolArrays
        ensures { result ≡ record { places = replicate 4096 0; order = replicate 4096 0 } }
    {
        SymbolArrays {
            places: [0; 4096],
            order: [0; 4096],
        }
    }

    // The whole table, with all its checks, as the stages ask it: with its order, and with the names and the sections, `heads`, that it refers to. The arrays hold its places and
    // the order.
    pub fn take<'a, 'b, 'p, 'l, 'h, 'i>(
        &'a mut self,
        names: &Names<'b, 'p, 'l>,
        heads: &Table<'h, 'i>,
        symbols: &'a [u8],
    ) -> Result<Obj<'a, 'a, 'a, 'b, 'p, 'l, 'h, 'i>, Refusal>
        requires { AllHeld 15 heads.now.bytes.now heads.now.places.now }
        ensures { TakesSymbols (symbols_check 4096 (length names.now.lengths.now) (sections_in heads.now.bytes.now heads.now.places.now) symbols.now) names.now heads.now symbols.now result }
    {
        let places = &mut self.places;
        let order = &mut self.order;
        let mut scratch = [0u16; 4096];
        let ordered = ordered_symbols(
            names.lengths.len(),
            heads,
            symbols,
            4096,
            places,
            order,
            &mut scratch,
        )?;
        Ok(Obj {
            symbols: ordered.table,
            order: ordered.order,
            names: *names,
            heads: *heads,
        })
    }
}
