// The stage tables but names, each with all its checks: document 01, "each for 1, 2, then its kind's number". `take_..` fills a lent column with the places of the records of a
// table that passes; what the column holds at first is of no matter. `.._table` does the same, and answers the table: the bytes with these places.
#![tactic(auto)]

ghost use Rattle.std.specs.Prelude.{List, ℕ, ◌≡◌, ◌*◌, ◌/◌, ◌<◌, ◌≤◌, length, take};
ghost use Rattle.obj.specs.Answers.{meaning};
ghost use Rattle.tables.specs.Tables.{size_check, records_check, AllHeld};
ghost use Rattle.tables.specs.Records.{sections_in};
ghost use Rattle.obj.specs.Records.{stage_places, split_width, partial_width};
ghost use Rattle.stage_tables.specs.StageTables.{table_check, sections_check, image_check, symbols_check, relocs_check, partials_check, splits_check, units_check, Room, Filled, Taken};

use obj::{PARTIAL_BYTES, Record, Refusal, Reloc, Section, Split, Symbol, Table, Unit};
use tables::{fill_places, table_size};

// What each function asks stays a clause, and bytes, ceiling and column stay three parameters: they are a caller's own and come together for this one call. That sections are held is
// said of a `Table`, as `sections::Obj` has them: others who read an `Obj` ask less.
// Two functions of each kind: a table that is answered holds the lent column, so `.._table` cannot name what the column holds afterwards; who still reads the column when the table
// is let go asks `take_..`.

// 1 and 2 of a table of records of `width` bytes, and the places of its records.
// A width, and no `Record`: a partial split is none.
fn fill_table(width: usize, b: &[u8], ceiling: usize, places: &mut [u32]) -> Result<(), Refusal>
    requires { (0 < width) × (width ≤ 64) × Room ceiling places.old }
    ensures { Filled (meaning result) (size_check width ceiling (length b.now)) width (length b.now) places.new }
{
    table_size(b.len(), width, ceiling)?;
    fill_places(&mut places[..b.len() / width], width);
    Ok(())
}

// The bytes with as many places as they have records, from the front of the column.
fn table_at<'b, 'p>(width: usize, b: &'b [u8], places: &'p [u32]) -> Table<'b, 'p>
    requires { (0 < width) × (length b.now / width ≤ length places.now) }
    ensures { (result.bytes.now ≡ b.now) × (result.places.now ≡ take (length b.now / width) places.now) }
{
    Table {
        bytes: b,
        places: &places[..b.len() / width],
    }
}

// 1 and 2, and then the check of the records, which is asked once they have their places.
fn check_table<F: Fn(&Table) -> Result<(), Refusal>>(
    width: usize,
    b: &[u8],
    ceiling: usize,
    places: &mut [u32],
    check: F,
) -> Result<(), Refusal>
    requires room { (0 < width) × (width ≤ 64) × Room ceiling places.old }
    requires asked { (t : _) → AllHeld width t.now.bytes.now t.now.places.now → F.pre check t }
    ensures { (fault : List ℕ → ℕ → ℕ)
        → ((t : _) (r : _) → t.now.bytes.now ≡ b.now → F.post check t r → meaning r ≡ records_check (fault t.now.places.now) (length t.now.places.now))
        → Filled (meaning result) (table_check width ceiling b.now (fault (stage_places width (length b.now / width)))) width (length b.now) places.new }
{
    fill_table(width, b, ceiling, places)?;
    check(&table_at(width, b, places))
}

// The sections of a stage that does not look at their bytes: "4 section: ..".
pub fn take_sections(
    lengths: &[u8],
    b: &[u8],
    ceiling: usize,
    places: &mut [u32],
) -> Result<(), Refusal>
    requires { Room ceiling places.old }
    ensures { Filled (meaning result) (sections_check ceiling lengths.now b.now) 15 (length b.now) places.new }
{
    check_table(
        Section::WIDTH,
        b,
        ceiling,
        places,
        |table| tables::check_sections(lengths, table),
    )
}

// The same, and the table.
pub fn sections_table<'b, 'p>(
    lengths: &[u8],
    b: &'b [u8],
    ceiling: usize,
    places: &'p mut [u32],
) -> Result<Table<'b, 'p>, Refusal>
    requires { Room ceiling places.old }
    ensures { Taken (sections_check ceiling lengths.now b.now) 15 b.now result }
{
    take_sections(lengths, b, ceiling, places)?;
    Ok(table_at(Section::WIDTH, b, places))
}

// Sections with bytes in an image of `image` bytes: 1 where they are cut, "4 section: ..".
pub fn take_image(
    lengths: &[u8],
    image_places: &[u8],
    image: usize,
    b: &[u8],
    ceiling: usize,
    places: &mut [u32],
) -> Result<(), Refusal>
    requires { Room ceiling places.old }
    ensures { Filled (meaning result) (image_check ceiling lengths.now image_places.now image b.now) 15 (length b.now) places.new }
{
    check_table(
        Section::WIDTH,
        b,
        ceiling,
        places,
        |table| tables::check_image(lengths, image_places, image, table),
    )
}

// The same, and the table.
pub fn image_table<'b, 'p>(
    lengths: &[u8],
    image_places: &[u8],
    image: usize,
    b: &'b [u8],
    ceiling: usize,
    places: &'p mut [u32],
) -> Result<Table<'b, 'p>, Refusal>
    requires { Room ceiling places.old }
    ensures { Taken (image_check ceiling lengths.now image_places.now image b.now) 15 b.now result }
{
    take_image(lengths, image_places, image, b, ceiling, places)?;
    Ok(table_at(Section::WIDTH, b, places))
}

// Symbols: "5 symbol: ..". `names` is a count, `heads` are the sections at their places.
pub fn take_symbols(
    names: usize,
    heads: &Table,
    b: &[u8],
    ceiling: usize,
    places: &mut [u32],
) -> Result<(), Refusal>
    requires { AllHeld 15 heads.now.bytes.now heads.now.places.now × Room ceiling places.old }
    ensures { Filled (meaning result) (symbols_check ceiling names (sections_in heads.now.bytes.now heads.now.places.now) b.now) 20 (length b.now) places.new }
{
    check_table(
        Symbol::WIDTH,
        b,
        ceiling,
        places,
        |table| tables::check_symbols(names, heads, table),
    )
}

// The same, and the table.
pub fn symbols_table<'b, 'p>(
    names: usize,
    heads: &Table,
    b: &'b [u8],
    ceiling: usize,
    places: &'p mut [u32],
) -> Result<Table<'b, 'p>, Refusal>
    requires { AllHeld 15 heads.now.bytes.now heads.now.places.now × Room ceiling places.old }
    ensures { Taken (symbols_check ceiling names (sections_in heads.now.bytes.now heads.now.places.now) b.now) 20 b.now result }
{
    take_symbols(names, heads, b, ceiling, places)?;
    Ok(table_at(Symbol::WIDTH, b, places))
}

// Relocations: "6 relocation: ..". `symbols` is a count; `floors` is room for a number of each section, and `places` has one of each relocation: no columns of one table.
// Not by `check_table`: the check writes the floors, so it is no `Fn`. With `FnOnce` there, take_symbols and take_splits did not prove: what a closure answered that holds a lent
// table was not known.
pub fn take_relocs(
    heads: &Table,
    symbols: usize,
    b: &[u8],
    ceiling: usize,
    places: &mut [u32],
    floors: &mut [u32],
) -> Result<(), Refusal>
    requires { AllHeld 15 heads.now.bytes.now heads.now.places.now × Room ceiling places.old × (length heads.now.places.now ≤ length floors.old) }
    ensures { Filled (meaning result) (relocs_check ceiling (sections_in heads.now.bytes.now heads.now.places.now) symbols b.now) 23 (length b.now) places.new }
{
    fill_table(Reloc::WIDTH, b, ceiling, places)?;
    tables::check_relocs(heads, symbols, &table_at(Reloc::WIDTH, b, places), floors)
}

// The same, and the table.
pub fn relocs_table<'b, 'p>(
    heads: &Table,
    symbols: usize,
    b: &'b [u8],
    ceiling: usize,
    places: &'p mut [u32],
    floors: &mut [u32],
) -> Result<Table<'b, 'p>, Refusal>
    requires { AllHeld 15 heads.now.bytes.now heads.now.places.now × Room ceiling places.old × (length heads.now.places.now ≤ length floors.old) }
    ensures { Taken (relocs_check ceiling (sections_in heads.now.bytes.now heads.now.places.now) symbols b.now) 23 b.now result }
{
    take_relocs(heads, symbols, b, ceiling, places, floors)?;
    Ok(table_at(Reloc::WIDTH, b, places))
}

// A partial list, "checked as records": "7 split: ..".
pub fn take_partials(
    lengths: &[u8],
    b: &[u8],
    ceiling: usize,
    places: &mut [u32],
) -> Result<(), Refusal>
    requires { Room ceiling places.old }
    ensures { Filled (meaning result) (partials_check ceiling lengths.now b.now) partial_width (length b.now) places.new }
{
    check_table(
        PARTIAL_BYTES,
        b,
        ceiling,
        places,
        |table| tables::check_partials(lengths, table),
    )
}

// The same, and the table.
pub fn partials_table<'b, 'p>(
    lengths: &[u8],
    b: &'b [u8],
    ceiling: usize,
    places: &'p mut [u32],
) -> Result<Table<'b, 'p>, Refusal>
    requires { Room ceiling places.old }
    ensures { Taken (partials_check ceiling lengths.now b.now) partial_width b.now result }
{
    take_partials(lengths, b, ceiling, places)?;
    Ok(table_at(PARTIAL_BYTES, b, places))
}

// Splits: "7 split: ..; in stage tables also ..".
pub fn take_splits(
    lengths: &[u8],
    heads: &Table,
    b: &[u8],
    ceiling: usize,
    places: &mut [u32],
) -> Result<(), Refusal>
    requires { AllHeld 15 heads.now.bytes.now heads.now.places.now × Room ceiling places.old }
    ensures { Filled (meaning result) (splits_check ceiling lengths.now (sections_in heads.now.bytes.now heads.now.places.now) b.now) split_width (length b.now) places.new }
{
    check_table(
        Split::WIDTH,
        b,
        ceiling,
        places,
        |table| tables::check_splits(lengths, heads, table),
    )
}

// The same, and the table.
pub fn splits_table<'b, 'p>(
    lengths: &[u8],
    heads: &Table,
    b: &'b [u8],
    ceiling: usize,
    places: &'p mut [u32],
) -> Result<Table<'b, 'p>, Refusal>
    requires { AllHeld 15 heads.now.bytes.now heads.now.places.now × Room ceiling places.old }
    ensures { Taken (splits_check ceiling lengths.now (sections_in heads.now.bytes.now heads.now.places.now) b.now) split_width b.now result }
{
    take_splits(lengths, heads, b, ceiling, places)?;
    Ok(table_at(Split::WIDTH, b, places))
}

// Units: "8 unit: ..".
pub fn take_units(
    lengths: &[u8],
    b: &[u8],
    ceiling: usize,
    places: &mut [u32],
) -> Result<(), Refusal>
    requires { Room ceiling places.old }
    ensures { Filled (meaning result) (units_check ceiling lengths.now b.now) 8 (length b.now) places.new }
{
    check_table(
        Unit::WIDTH,
        b,
        ceiling,
        places,
        |table| tables::check_units(lengths, table),
    )
}

// The same, and the table.
pub fn units_table<'b, 'p>(
    lengths: &[u8],
    b: &'b [u8],
    ceiling: usize,
    places: &'p mut [u32],
) -> Result<Table<'b, 'p>, Refusal>
    requires { Room ceiling places.old }
    ensures { Taken (units_check ceiling lengths.now b.now) 8 b.now result }
{
    take_units(lengths, b, ceiling, places)?;
    Ok(table_at(Unit::WIDTH, b, places))
}
