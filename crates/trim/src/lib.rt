// The trim of a split table (`trim_split_alignment`, then `trim_linker_generated_symbols`): first all falls are found, then they are carried out, then the
// last splits are cut. Only ends change; starts, units and the rest stay as they are.
#![tactic(auto)]

ghost use Rattle.std.specs.Prelude.{◌≡◌, true, false, ℕ, ◌+◌, ◌-◌, ◌<◌, ◌≤◌, ◌&&◌, length, take, eqb, MatchOption};
ghost use Rattle.lists.specs.Rows.{tabulate, some};
ghost use Rattle.align.specs.Align.{bad_align};
ghost use Rattle.symbol_order.specs.Order.{symbol_of, Whole};
ghost use Rattle.symbols.specs.Ranges.{Within};
ghost use Rattle.symbols.specs.Sound.{Sound};
ghost use Rattle.sections.specs.Image.{image_in, TablesIn};
ghost use Rattle.sections.specs.Sections.{head_in, KeptIn};
ghost use Rattle.splits.specs.Columns.{row_at};
ghost use Rattle.splits.specs.Table.{columns_of, rows_of, ends_columns, ends_rows, OnlyEnds};
ghost use Rattle.trim.specs.Trim.{end_of, ask_next, aligned_end, fall_of, falls_of, carry_one, carry_from, cut_last, cut_section, cut_from, trimmed};
ghost use Rattle.trim.specs.Steps.{asked_meaning, seen, Placed, AllPlaced, Past, LastOf};
ghost use Rattle.trim.specs.Lent.{sections_in, PlacedIn};

use align::align_up;
use obj::{Refusal, Section, Split, Symbol, Table, refuse};
use sections::{Obj, split_alignment};
use splits::{SplitColumns, SplitEnds, row, set_end};
use symbols::{Backwards, last_in};

mod checked_tables;

use checked_tables::CheckedTables;

// ---- trim_split_alignment: the falls

// "the alignment of the section's next split is still asked, from this split's start", and may be 11. The next split is that at place j.
fn ask_next(
    tables: &CheckedTables,
    splits: &SplitColumns,
    s: Split,
    j: usize,
) -> Result<(), Backwards>
    requires { s.section < length tables.now.obj.heads.places.now }
    ensures { asked_meaning s.section s.start result
        ≡ ask_next (image_in tables.now.obj) (head_in tables.now.obj) s
        (tabulate (row_at (columns_of splits.now)) j (splits.now.count - j)) }
{
    if splits.count <= j {
        return Ok(());
    }
    let next = row(splits, j);
    if next.section != s.section {
        return Ok(());
    }
    split_alignment(&tables.obj, next, s.start)?;
    Ok(())
}

// "the end of the last such symbol in start..end"; the split's own end where there is none. With `map_or` the closure would need both clauses of its own, and be the longer.
fn end_of(table: &Table, found: Option<usize>, own: u32) -> u32
    requires { Whole table.now.bytes.now table.now.places.now × Sound (symbol_of table.now.bytes.now table.now.places.now) (length table.now.places.now) × (own ≤ 4026531840)
        × ((i : ℕ) → found ≡ Some i → i < length table.now.places.now) }
    ensures { Within (end_of (symbol_of table.now.bytes.now table.now.places.now) own found) 4026531840 result }
{
    match found {
        Some(i) => table.record::<Symbol>(i).end() as u32,
        None => own,
    }
}

// "the end of the last such symbol in start..end, aligned up"
fn aligned_end(tables: &CheckedTables, s: Split) -> Result<u32, Backwards>
    requires { Placed (length tables.now.obj.heads.places.now) s × (bad_align s.alignment ≡ false) }
    ensures { asked_meaning s.section s.start result ≡ aligned_end (image_in tables.now.obj) (head_in tables.now.obj) s }
{
    let found = last_in(
        &tables.obj.symbols,
        tables.obj.order,
        s.section,
        s.start,
        s.end,
    )?;
    let end = end_of(&tables.obj.symbols, found, s.end);
    let a = split_alignment(&tables.obj, s, s.start)?;
    Ok(align_up(end, a.value()))
}

// Where the end of s falls to, 0 if it does not fall; the split after it is that at place j. The column of falls, which is lent, holds such a 0: an Option would be
// made for one call, which turns it into the 0.
fn fall_of(
    tables: &CheckedTables,
    splits: &SplitColumns,
    s: Split,
    j: usize,
) -> Result<u32, Backwards>
    requires { Placed (length tables.now.obj.heads.places.now) s × (bad_align s.alignment ≡ false) }
    ensures { asked_meaning s.section s.start result
        ≡ fall_of (image_in tables.now.obj) (head_in tables.now.obj) s
        (tabulate (row_at (columns_of splits.now)) j (splits.now.count - j)) }
{
    let low = aligned_end(tables, s)?;
    if low < s.end {
        ask_next(tables, splits, s, j)?;
        return Ok(low);
    }
    Ok(0)
}

// The falls of all splits, in the table's order; 11 is at the split whose fall is asked. By number: a turn reads a row from four columns, and the row behind it.
fn find_falls(
    tables: &CheckedTables,
    splits: &SplitColumns,
    falls: &mut [u32],
) -> Result<(), Refusal>
    requires { PlacedIn tables.now.obj splits.now × (splits.now.count ≤ length falls.old) }
    ensures { seen result (take splits.now.count falls.new)
        ≡ falls_of (image_in tables.now.obj) (head_in tables.now.obj) (rows_of splits.now) }
{
    for i in 0..splits.count {
        let s = row(splits, i);
        let fall = fall_of(tables, splits, s, i + 1);
        falls[i] = fall.map_err(|_| Refusal::new(11, s.section, s.start))?;
    }
    Ok(())
}

// ---- trim_split_alignment: the falls carried out

// Whether row j starts where s does.
fn starts_with(splits: &SplitColumns, j: usize, s: Split) -> bool
    requires { j < splits.now.count }
    ensures { result ≡ (eqb (row_at (columns_of splits.now) j).section s.section && eqb (row_at (columns_of splits.now) j).start s.start) }
{
    let y = row(splits, j);
    (y.section == s.section) & (y.start == s.start)
}

// The first place from `from` on whose row does not start where s does; the table's end where there is none.
fn past_start(splits: &SplitColumns, s: Split, from: usize) -> usize
    requires { from ≤ splits.now.count }
    ensures { Past s (columns_of splits.now) splits.now.count from result }
{
    (from..splits.count)
        .find(|j| !starts_with(splits, *j, s))
        .unwrap_or(splits.count)
}

// The fall of row k, 0 if it does not fall: "It falls in the last split at that start".
fn carry_one(table: &mut SplitEnds, k: usize, end: u32) -> Result<(), Refusal>
    requires { k < table.old.count }
    ensures rows { seen result (ends_rows table.new) ≡ carry_one k end (ends_rows table.old) }
    ensures others { OnlyEnds table.old table.new }
{
    if end == 0 {
        return Ok(());
    }
    let splits = table.columns();
    let s = row(&splits, k);
    let last = past_start(&splits, s, k + 1) - 1;
    let old = table.ends[last];
    if (old <= s.start) & (old != 0) {
        return refuse(54, s.section, s.start);
    }
    set_end(table, last, end);
    Ok(())
}

// The falls of all rows, one after another.
fn carry_out(table: &mut SplitEnds, falls: &[u32]) -> Result<(), Refusal>
    requires { table.old.count ≤ length falls.now }
    ensures rows { seen result (ends_rows table.new) ≡ carry_from 0 (take table.old.count falls.now) (ends_rows table.old) }
    ensures others { OnlyEnds table.old table.new }
{
    for (k, end) in falls[..table.count].iter().enumerate() {
        carry_one(table, k, *end)?;
    }
    Ok(())
}

// ---- trim_linker_generated_symbols

// The section's last row.
fn last_of(splits: &SplitColumns, section: u16) -> Option<usize>
    ensures { MatchOption result
        (some (λ (y : Split). eqb y.section section) (rows_of splits.now) ≡ false)
        (LastOf section (columns_of splits.now) splits.now.count) }
{
    (0..splits.count)
        .rev()
        .find(|j| row(splits, *j).section == section)
}

// "a last split that ends above it is cut to it"
fn cut_last(table: &mut SplitEnds, section: u16, end: u32)
    ensures rows { ends_rows table.new ≡ cut_last section end (ends_rows table.old) }
    ensures others { OnlyEnds table.old table.new }
{
    let Some(k) = last_of(&table.columns(), section) else {
        return;
    };
    if table.ends[k] <= end {
        return;
    }
    set_end(table, k, end);
}

// Section k: "where the splitting end isn't the section's end", its last split.
fn cut_section(tables: &CheckedTables, table: &mut SplitEnds, k: usize) -> Result<(), Refusal>
    requires { k < length tables.now.obj.heads.places.now }
    ensures rows { seen result (ends_rows table.new)
        ≡ cut_section (image_in tables.now.obj) (sections_in tables.now.obj tables.now.image) k (ends_rows table.old) }
    ensures others { OnlyEnds table.old table.new }
{
    let head = tables.obj.heads.record::<Section>(k);
    let end = sections::end_of(&tables.obj, &tables.image, k);
    let low = end.map_err(|_| Refusal::new(10, k as u16, head.address))?;
    if head.end() != u64::from(low) {
        cut_last(table, k as u16, low);
    }
    Ok(())
}

// All sections, in their order. What a turn takes of a section is its number.
fn cut_sections(tables: &CheckedTables, table: &mut SplitEnds) -> Result<(), Refusal>
    ensures rows { seen result (ends_rows table.new)
        ≡ cut_from (image_in tables.now.obj) (sections_in tables.now.obj tables.now.image) (length tables.now.obj.heads.places.now) 0 (ends_rows table.old) }
    ensures others { OnlyEnds table.old table.new }
{
    for k in 0..tables.obj.heads.places.len() {
        cut_section(tables, table, k)?;
    }
    Ok(())
}

// ---- the stage

// The table trimmed. `falls` is room for a number of each row.
pub fn trim(
    obj: &Obj,
    image: &Table,
    table: &mut SplitEnds,
    falls: &mut [u32],
) -> Result<(), Refusal>
    requires { TablesIn obj.now
        × Sound (symbol_of obj.now.symbols.bytes.now obj.now.symbols.places.now) (length obj.now.symbols.places.now)
        × KeptIn obj.now image.now
        × AllPlaced (length obj.now.heads.places.now) (ends_columns table.old) table.old.count × (table.old.count ≤ length falls.old) }
    ensures rows { seen result (ends_rows table.new)
        ≡ trimmed (image_in obj.now) (sections_in obj.now image.now) (ends_rows table.old) }
    ensures others { OnlyEnds table.old table.new }
{
    let tables = CheckedTables {
        obj: *obj,
        image: *image,
    };
    find_falls(&tables, &table.columns(), falls)?;
    carry_out(table, falls)?;
    cut_sections(&tables, table)
}
