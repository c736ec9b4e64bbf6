// The run checks and trims: "checks (`validate_splits`), trims (..)". Symbols, names and sections are the file's own bytes; the table stands in lent columns.
#![tactic(auto)]

ghost use Rattle.std.specs.Prelude.{◌≡◌, ◌≤◌, length};
ghost use Rattle.symbol_order.specs.Order.{symbol_of};
ghost use Rattle.symbols.specs.Sound.{Sound};
ghost use Rattle.sections.specs.Image.{image_of, Tables};
ghost use Rattle.sections.specs.Sections.{sections_of, Kept};
ghost use Rattle.splits.specs.Table.{ends_rows, ends_columns, OnlyEnds};
ghost use Rattle.trim.specs.Steps.{AllPlaced, seen};
ghost use Rattle.run_trim.specs.Checking.{checked_table};

use loaded::Loaded;
use obj::Refusal;
use splits::SplitEnds;
use trim::trim;
use validate::validate;

// The check of the rows, and where it passes the trim of their ends. `falls` is room for as many ends as there are rows.
pub fn check_and_trim(
    loaded: &Loaded,
    table: &mut SplitEnds,
    falls: &mut [u32],
) -> Result<(), Refusal>
    requires { Tables loaded.now.file.now loaded.now.symbols.now loaded.now.order.now loaded.now.file.now loaded.now.names.now loaded.now.lengths.now
        × Sound (symbol_of loaded.now.file.now loaded.now.symbols.now) (length loaded.now.symbols.now)
        × Kept loaded.now.file.now loaded.now.sections.now loaded.now.file.now loaded.now.images.now loaded.now.names.now
        × AllPlaced (length loaded.now.sections.now) (ends_columns table.old) table.old.count
        × (table.old.count ≤ length falls.old) }
    ensures rows { seen result (ends_rows table.new)
        ≡ checked_table (image_of loaded.now.file.now loaded.now.symbols.now loaded.now.file.now loaded.now.names.now loaded.now.lengths.now)
        (sections_of loaded.now.file.now loaded.now.sections.now loaded.now.file.now loaded.now.images.now)
        (ends_rows table.old) }
    ensures others { OnlyEnds table.old table.new }
{
    let obj = loaded.obj();
    validate(&obj.symbols, obj.order, &table.columns())?;
    trim(&obj, &loaded.image(), table, falls)
}
