// Marking common (document 01, Common): "Every `.bss` split from the given address on, else from the first common one on, becomes common."
// `update_common_splits` works on the split table's columns. `mark_common_splits` is document 01's own form, "on a lent slice of split records".
#![tactic(auto)]

ghost use Rattle.std.specs.Prelude.{◌≡◌, map, ◌&&◌, eqb, ℕ, ◌/◌, ◌%◌, ◌<◌, ◌≤◌, length, take, is_some, unwrap_or};
ghost use Rattle.lists.specs.Rows.{keep_if};
ghost use Rattle.lists.specs.Outcome.{accepted};
ghost use Rattle.splits.specs.Columns.{row_of, row_at};
ghost use Rattle.splits.specs.Table.{columns_of, rows_of, rest_columns, rest_rows, OnlyRest};
ghost use Rattle.common.specs.Common.{common_in, common_start, from_of, start_meaning, start_of, marked, common_of, answered, First};
ghost use Rattle.common.specs.Records.{Kept};
ghost use Rattle.common.specs.Sections.{has_bss_name, bss_numbers, bss_of, first_of, given_of, SectionsIn};

use names::{Names, is_bss, name_at};
use obj::{COMMON, Refusal, Section, Split, Table, refuse};
use splits::{SplitColumns, SplitRest, flags_of, rest_of, row, section_of};

mod named_sections;

use named_sections::NamedSections;

// The sections named `.bss`: none, one, or several. Document 01 has three cases, so it is no Option.
#[derive(Clone, Copy)]
pub enum Bss {
    None,
    One(u16),
    Many,
}

// From where on the splits of a section are common.
#[derive(Clone, Copy)]
pub struct Start {
    pub section: u16,
    pub address: u32,
}

// ---- the section

// Whether section k is named `.bss`.
fn is_bss_at(sections: &NamedSections, k: usize) -> bool
    requires { k < length sections.now.heads.places.now }
    ensures { result ≡ has_bss_name sections.now.names sections.now.heads k }
{
    let head = sections.heads.record::<Section>(k);
    let name = head.name as usize;
    is_bss(name_at(&sections.names, name))
}

// The first section from `from` on that is named `.bss`.
fn next_bss(sections: &NamedSections, from: usize) -> Option<usize>
    requires { from ≤ length sections.now.heads.places.now }
    ensures { First (has_bss_name sections.now.names sections.now.heads) (λ k. k) (length sections.now.heads.places.now) from result }
{
    (from..sections.heads.places.len()).find(|k| is_bss_at(sections, *k))
}

// `by_name(".bss")`: at most one section may have the name.
fn by_name(sections: &NamedSections) -> Bss
    ensures { result ≡ bss_of (bss_numbers sections.now.names sections.now.heads) }
{
    let Some(first) = next_bss(sections, 0) else {
        return Bss::None;
    };
    let second = next_bss(sections, first + 1);
    match second {
        Some(_) => Bss::Many,
        None => Bss::One(first as u16),
    }
}

// ---- where the common splits begin

// Whether a row is a section's and common.
fn is_common_in(section: u16, yrest: u64) -> bool
    ensures { result ≡ (eqb (yrest % 65536) section && eqb (yrest / 4294967296 % 256 % 2) 1) }
{
    (section_of(yrest) == section) & (flags_of(yrest) / COMMON % 2 == 1)
}

// The first common row of a section.
fn first_common(splits: &SplitColumns, section: u16) -> Option<usize>
    ensures { First (common_in section) (row_at (columns_of splits.now)) splits.now.count 0 result }
{
    (0..splits.count).find(|i| is_common_in(section, splits.rest[*i]))
}

// "else from the first common one on": of the one `.bss`.
fn first_start(splits: &SplitColumns, section: u16) -> Option<Start>
    ensures { from_of result ≡ start_of section (keep_if (common_in section) (rows_of splits.now)) }
{
    let i = first_common(splits, section)?;
    Some(Start {
        section,
        address: splits.starts[i],
    })
}

// `common_bss_start`: without a start several `.bss` or none change nothing.
fn common_bss_start(bss: Bss, splits: &SplitColumns) -> Option<Start>
    ensures { from_of result ≡ first_of bss (rows_of splits.now) }
{
    match bss {
        Bss::None => None,
        Bss::One(section) => first_start(splits, section),
        Bss::Many => None,
    }
}

// "the given address", in the one `.bss`: "30 several `.bss`; 31 none".
fn given_start(bss: Bss, address: u32) -> Result<Option<Start>, Refusal>
    ensures { result ≡ given_of address bss }
{
    match bss {
        Bss::None => refuse(31, 0, 0),
        Bss::One(section) => Ok(Some(Start { section, address })),
        Bss::Many => refuse(30, 0, 0),
    }
}

// The public functions ask of names and heads what `NamedSections` has: they take them as they did, and only the first one needs the struct.

// The section and the address where the common splits begin, if they begin anywhere: "the given address .., else .. the first common one".
pub fn common_start(
    names: &Names,
    heads: &Table,
    splits: &SplitColumns,
    given: Option<u32>,
) -> Result<Option<Start>, Refusal>
    requires { SectionsIn names.now heads.now }
    ensures { start_meaning result
        ≡ common_start (is_some given) (unwrap_or given 0) (bss_numbers names.now heads.now) (rows_of splits.now) }
{
    let sections = NamedSections {
        names: *names,
        heads: *heads,
    };
    let bss = by_name(&sections);
    match given {
        Some(address) => given_start(bss, address),
        None => Ok(common_bss_start(bss, splits)),
    }
}

// ---- the marking, in the columns

// The common flag in a row's packed number.
const PACKED_COMMON: u64 = 4294967296;

// The rest of a row that starts at `ystart`, with the common flag if it is a split of the section from the address on.
fn marked_rest(ystart: u32, yrest: u64, from: Start) -> u64
    ensures { (end unit : ℕ) → row_of ystart end unit result ≡ marked from.section from.address (row_of ystart end unit yrest) }
{
    if (section_of(yrest) == from.section) & (from.address <= ystart) {
        return yrest - yrest / PACKED_COMMON % 2 * PACKED_COMMON + PACKED_COMMON;
    }
    yrest
}

// Every row of the section from the address on becomes common. By number, since a turn reads two columns and writes one of them.
pub fn mark_columns(table: &mut SplitRest, from: Start)
    ensures rows { rest_rows table.new ≡ map (marked from.section from.address) (rest_rows table.old) }
    ensures others { OnlyRest table.old table.new }
{
    for i in 0..table.count {
        table.rest[i] = marked_rest(table.starts[i], table.rest[i], from);
    }
}

// ---- the marking, on a lent slice of split records

// One split: it becomes common, if it is a split of the section from the address on.
pub fn marked_split(s: Split, from: Start) -> Split
    ensures { result ≡ marked from.section from.address s }
{
    if (s.section == from.section) & (from.address <= s.start) {
        let mut r = s;
        r.flags = s.flags / 2 * 2 + COMMON;
        return r;
    }
    s
}

// "A thin function over a lent slice of split structs sets common from an address on".
pub fn mark_common_splits(splits: &mut [Split], from: Start)
    ensures { splits.new ≡ map (marked from.section from.address) splits.old }
{
    for s in splits.iter_mut() {
        *s = marked_split(*s, from);
    }
}

// The rows as split records, by number, since a row is read from four columns. That they are at most 1,024 is asked by all that put rows into such an array; in `SplitRest` it would be asked of each table.
fn records(splits: &SplitColumns) -> [Split; 1024]
    requires { splits.now.count ≤ 1024 }
    ensures { take splits.now.count result ≡ rows_of splits.now }
{
    let mut table = [Split::default(); 1024];
    for i in 0..splits.count {
        table[i] = row(splits, i);
    }
    table
}

// The records back into the column that may have changed. By number: the requires says of each record what stands at its place in the other columns.
fn put_records(table: &mut SplitRest, records: [Split; 1024])
    requires { (table.old.count ≤ 1024) × Kept (rest_columns table.old) records table.old.count }
    ensures rows { rest_rows table.new ≡ take table.old.count records }
    ensures others { OnlyRest table.old table.new }
{
    for i in 0..table.count {
        table.rest[i] = rest_of(records[i]);
    }
}

// What `mark_columns` does, on split records.
pub fn mark_records(table: &mut SplitRest, from: Start)
    requires { table.old.count ≤ 1024 }
    ensures rows { rest_rows table.new ≡ map (marked from.section from.address) (rest_rows table.old) }
    ensures others { OnlyRest table.old table.new }
{
    let mut rows = records(&table.columns());
    mark_common_splits(&mut rows, from);
    put_records(table, rows);
}

// ---- the stage

// The stage on the split table's columns.
pub fn update_common_splits(
    names: &Names,
    heads: &Table,
    table: &mut SplitRest,
    given: Option<u32>,
) -> Result<(), Refusal>
    requires { SectionsIn names.now heads.now }
    ensures rows { answered result (rest_rows table.new)
        ≡ common_of (is_some given) (unwrap_or given 0) (bss_numbers names.now heads.now) (rest_rows table.old) }
    ensures others { OnlyRest table.old table.new }
{
    let start = common_start(names, heads, &table.columns(), given)?;
    if let Some(from) = start {
        mark_columns(table, from);
    }
    Ok(())
}

// The same on split records: the other form has a call of `mark_columns` here, and of this one `mark_records` asks that the rows fit 1,024 records. One function for both would take
// the marking as a closure, with a clause for what it asks and one for what it does, and would be longer than these four lines.
pub fn update_common_records(
    names: &Names,
    heads: &Table,
    table: &mut SplitRest,
    given: Option<u32>,
) -> Result<(), Refusal>
    requires { SectionsIn names.now heads.now × (table.old.count ≤ 1024) }
    ensures rows { answered result (rest_rows table.new)
        ≡ common_of (is_some given) (unwrap_or given 0) (bss_numbers names.now heads.now) (rest_rows table.old) }
    ensures others { OnlyRest table.old table.new }
{
    let start = common_start(names, heads, &table.columns(), given)?;
    if let Some(from) = start {
        mark_records(table, from);
    }
    Ok(())
}
