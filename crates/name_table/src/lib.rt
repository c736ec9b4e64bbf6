// The name table of a stage: `ends` has where each name ends in `bytes`, two bytes each; a name starts where the one before it ends. Its checks,
// and the names as columns: "each for 1, 2, then its kind's number", "Two equal names in stage tables: 3".
#![tactic(auto)]

mod arrays;
mod columns;

ghost use Rattle.std.specs.Prelude.{◌≡◌, ◌+◌, ◌*◌, ◌/◌, ◌≤◌, ◌<◌, length};
ghost use Rattle.obj.specs.Answers.{meaning};
ghost use Rattle.tables.specs.Tables.{record_check, records_check};
ghost use Rattle.name_table.specs.NameTable.{start_of, end_of, name_fault, names_check};
ghost use Rattle.name_table.specs.Stored.{Stored, Number};
ghost use Rattle.name_table.specs.Columns.{StoredIn, StoresIn, SameLent};

pub use arrays::NameArrays;
pub use columns::NameColumns;
use fields::Field;
use names::{NameIndex, Names, bad_name, bucket_of, clear_heads, enter, find};
use obj::{Refusal, refuse};
use tables::table_size;

// Where name k starts.
#[tactic(auto, unfolding(crate::specs::NameTable::start_of))]
pub fn start_of(ends: &[u8], k: usize) -> usize
    requires { 2 * k ≤ length ends.now }
    ensures { Number (start_of ends.now k) result }
{
    if k == 0 {
        return 0;
    }
    u16::get(ends, 2 * k - 2) as usize
}

// Where name k ends. That it has an end is asked here and by what takes a name's number, and is no field of a struct: of the ends it is a fact for one k only.
pub fn end_of(ends: &[u8], k: usize) -> usize
    requires { 2 * k + 2 ≤ length ends.now }
    ensures { Number (end_of ends.now k) result }
{
    u16::get(ends, 2 * k) as usize
}

// The fault of name k, which follows k good ones: 1 where its end falls or passes the bytes; "3 name byte or length", or equal to an earlier one.
fn name_fault(ends: &[u8], names: &Names, index: &NameIndex, k: usize) -> Result<(), Refusal>
    requires { (2 * k + 2 ≤ length ends.now) × (k ≤ 4294967295) × Stored ends.now names.now.bytes.now names.now.places.now names.now.lengths.now index.now.heads.now index.now.chain.now k }
    ensures { meaning result ≡ record_check (name_fault ends.now names.now.bytes.now k) k }
{
    let start = start_of(ends, k);
    let end = end_of(ends, k);
    if (end < start) | (names.bytes.len() < end) {
        return refuse(1, 0, k as u32);
    }
    let name = &names.bytes[start..end];
    if bad_name(name) | find(names, k, index, name).is_some() {
        return refuse(3, 0, k as u32);
    }
    Ok(())
}

// Name k has no fault: its place and length are stored, and it is entered into the index.
fn add_name(ends: &[u8], bytes: &[u8], columns: &mut NameColumns, k: usize)
    requires { (2 * k + 2 ≤ length ends.now)
        × (k < 4096)
        × StoredIn ends.now bytes.now columns.old k
        × (name_fault ends.now bytes.now k ≡ 0) }
    ensures stored { StoredIn ends.now bytes.now columns.new (k + 1) }
    ensures lent { SameLent columns.old columns.new }
{
    let start = start_of(ends, k);
    let end = end_of(ends, k);
    let bucket = bucket_of(&bytes[start..end]);
    columns.places[k] = start as u32;
    columns.lengths[k] = (end - start) as u8;
    enter(columns.heads, columns.chain, bucket, k);
}

// Names from the first on, each stored and entered, to the first that has a fault.
fn take_names(ends: &[u8], bytes: &[u8], columns: &mut NameColumns) -> Result<(), Refusal>
    requires { (length ends.now / 2 ≤ 4096) × StoredIn ends.now bytes.now columns.old 0 }
    ensures stored { StoresIn (meaning result) (records_check (name_fault ends.now bytes.now) (length ends.now / 2)) ends.now bytes.now columns.new (length ends.now / 2) }
    ensures lent { SameLent columns.old columns.new }
{
    // by number: it is where the name is stored, and what a refusal names
    for i in 0..ends.len() / 2 {
        name_fault(ends, &columns.names(bytes), &columns.index(), i)?;
        add_name(ends, bytes, columns, i);
    }
    Ok(())
}

// The whole table: 1 and 2 of its length, then its names in order; the columns hold what they are. What they hold at first is of no matter.
pub fn check_names(
    ends: &[u8],
    bytes: &[u8],
    ceiling: usize,
    columns: &mut NameColumns,
) -> Result<(), Refusal>
    requires { ceiling ≤ 4096 }
    ensures stored { StoresIn (meaning result) (names_check ceiling ends.now bytes.now) ends.now bytes.now columns.new (length ends.now / 2) }
    ensures lent { SameLent columns.old columns.new }
{
    table_size(ends.len(), 2, ceiling)?;
    clear_heads(columns.heads);
    take_names(ends, bytes, columns)
}
