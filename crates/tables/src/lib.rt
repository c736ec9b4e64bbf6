// The checks of the stage tables: document 01, "stage tables by kind (record: its number there; for 2 the first too many), each for 1, 2, then
// its kind's number". A table is lent bytes and a column of places, as the readers of `obj` take it; names come in as a column of their lengths.
#![tactic(auto)]

mod held_table;

ghost use Rattle.std.specs.Prelude.{ℕ, ◌≡◌, ◌*◌, ◌<◌, ◌≤◌, length, get_or, take, replicate};
ghost use Rattle.obj.specs.Records.{stage_places, Held, split_width, partial_width};
ghost use Rattle.obj.specs.Answers.{meaning};
ghost use Rattle.obj.specs.Nothing.{no_section};
ghost use Rattle.tables.specs.Tables.{main_ceilings, size_check, record_check, records_check, AllHeld};
ghost use Rattle.tables.specs.Records.{sections_in, symbols_in, relocs_in, partials_in, splits_in, units_in, numbered, image_places_of, bytes_cut, split_before, reloc_fault_above, section_fault, image_fault, symbol_fault, reloc_fault, partial_fault, split_fault, unit_fault};

use faults::{reloc_bad, section_bad, split_bad, split_misplaced, symbol_bad, unit_bad};
use fields::Field;
use held_table::HeldTable;
use obj::{Refusal, Reloc, Section, Split, Symbol, Table, Unit, place_of, read_partial, refuse};

// How many records of each kind there are, or how many there may be.
#[derive(Clone, Copy, Default)]
pub struct Counts {
    pub names: usize,
    pub sections: usize,
    pub symbols: usize,
    pub relocations: usize,
    pub splits: usize,
    pub units: usize,
}

// The same by the name that says the most of each kind.
pub use Counts as Ceilings;

// "64 sections, 4,096 symbols, 4,096 relocations, 1,024 splits, 1,024 units, 4,096 names".
pub fn main_ceilings() -> Ceilings
    ensures { result ≡ main_ceilings }
{
    Ceilings {
        names: 4096,
        sections: 64,
        symbols: 4096,
        relocations: 4096,
        splits: 1024,
        units: 1024,
    }
}

// "1 file cut": not whole records; "2 count above its ceiling", at the first too many.
pub fn table_size(size: usize, width: usize, ceiling: usize) -> Result<(), Refusal>
    requires { (0 < width) × (ceiling < 4294967296) }
    ensures { meaning result ≡ size_check width ceiling size }
{
    let n = size / width;
    if size % width != 0 {
        return refuse(1, 0, place_of(n));
    }
    if ceiling < n {
        return refuse(2, 0, ceiling as u32);
    }
    Ok(())
}

// The places of a stage table's records, as many as the column has.
pub fn fill_places(places: &mut [u32], width: usize)
    requires { width * length places.old ≤ 4294967295 }
    ensures { places.new ≡ stage_places width (length places.old) }
{
    for (i, place) in places.iter_mut().enumerate() {
        *place = (width * i) as u32;
    }
}

// ---- what a record refers to

// The length of name k, 0 of an unknown one: "name unknown or empty" is one test of the length.
pub fn length_of(lengths: &[u8], k: usize) -> usize
    ensures { result ≡ get_or lengths.now k 0 }
{
    usize::from(lengths.get(k).copied().unwrap_or(0))
}

// Section k, or an empty one: each fault that looks at a section also asks whether there is one of that number, so what the bounds of an empty one say is of no matter.
// An `if`, here and in `image_place`: `(k < n).then(|| ..).unwrap_or_default()` has the same two cases, by an Option and a closure more.
pub fn section_or_none(table: &Table, k: usize) -> Section
    requires { AllHeld 15 table.now.bytes.now table.now.places.now }
    ensures { result ≡ get_or (sections_in table.now.bytes.now table.now.places.now) k no_section }
{
    if k < table.places.len() {
        return table.record::<Section>(k);
    }
    Section::default()
}

// The faults below are asked of a table and a number k, as their definitions are. That there is a k stays a clause: a struct of a table and a number would be made anew for each
// record. What other crates call takes a `Table`, asks that its records are held, and makes the `HeldTable`: `Table` is every table of records, of any width. Of partial splits, which
// are no `Record`, it stays a clause.

// A fault and a check for each kind of record, with `check_records` in common. One check over every `Record`, its test a closure, would serve symbols, splits and units alone:
// a section with bytes in an image can be refused by two numbers, a partial split is no `Record`, and the floors of a relocation change from one to the next.

// Record k is refused with this number if the test holds.
// The test is the answer of a rule, and no step to run.
#[tactic(auto, unfolding(lists::specs::Outcome::refuse))]
fn refuse_if(number: u16, k: usize, test: bool) -> Result<(), Refusal>
    requires { (0 < number) × (k ≤ 4294967295) }
    ensures { meaning result ≡ record_check (numbered number test) k }
{
    if test {
        return refuse(number, 0, k as u32);
    }
    Ok(())
}

// The records of a table in their order, up to the first that is refused: "record: its number there".
fn check_records<F: Fn(usize) -> Result<(), Refusal>>(n: usize, check: F) -> Result<(), Refusal>
    requires { (k : ℕ) → k < n → F.pre check k }
    ensures { (fault : ℕ → ℕ) → ((k : ℕ) (r : _) → k < n → F.post check k r → meaning r ≡ record_check (fault k) k) → meaning result ≡ records_check fault n }
{
    for k in 0..n {
        check(k)?;
    }
    Ok(())
}

// ---- sections

// The fault of section k.
fn section_fault(lengths: &[u8], sections: &HeldTable<Section>, k: usize) -> Result<(), Refusal>
    requires { k < length sections.now.table.places.now }
    ensures { meaning result ≡ record_check (section_fault lengths.now (sections_in sections.now.table.bytes.now sections.now.table.places.now) k) k }
{
    let s = sections.record(k);
    refuse_if(4, k, section_bad(s, length_of(lengths, s.name as usize)))
}

// Every section: "4 section: ..".
pub fn check_sections(lengths: &[u8], table: &Table) -> Result<(), Refusal>
    requires { AllHeld 15 table.now.bytes.now table.now.places.now }
    ensures { meaning result ≡ records_check (section_fault lengths.now (sections_in table.now.bytes.now table.now.places.now)) (length table.now.places.now) }
{
    let sections = HeldTable::<Section>::of(table);
    check_records(table.places.len(), |k| section_fault(lengths, &sections, k))
}

// The place of section k's bytes in the image, 0 of one that has none. Who reads the bytes has asked `bytes_cut`, which refuses a section without a place: an Option would
// leave him a branch that is never taken.
pub fn image_place(places: &[u8], k: usize) -> u32
    ensures { result ≡ get_or (image_places_of places.now) k 0 }
{
    if k < places.len() / 4 {
        return u32::get(places, 4 * k);
    }
    0
}

// A section that has bytes, but no place for them in the image, or one from which they pass it.
pub fn bytes_cut(places: &[u8], image: usize, k: usize, s: Section) -> bool
    ensures { result ≡ bytes_cut (image_places_of places.now) image k s }
{
    let start = image_place(places, k);
    !s.is_bss() & ((places.len() / 4 <= k) | ((image as u64) < (start as u64) + (s.size as u64)))
}

// The fault of section k in a table whose sections have bytes in an image.
fn image_fault(
    lengths: &[u8],
    image_places: &[u8],
    image: usize,
    sections: &HeldTable<Section>,
    k: usize,
) -> Result<(), Refusal>
    requires { k < length sections.now.table.places.now }
    ensures { meaning result ≡ record_check (image_fault lengths.now (image_places_of image_places.now) image (sections_in sections.now.table.bytes.now sections.now.table.places.now) k) k }
{
    if bytes_cut(image_places, image, k, sections.record(k)) {
        return refuse(1, 0, k as u32);
    }
    section_fault(lengths, sections, k)
}

// Every section of a table whose sections have bytes in an image of `image` bytes: 1 where they are cut, else 4.
pub fn check_image(
    lengths: &[u8],
    image_places: &[u8],
    image: usize,
    table: &Table,
) -> Result<(), Refusal>
    requires { AllHeld 15 table.now.bytes.now table.now.places.now }
    ensures { meaning result ≡ records_check (image_fault lengths.now (image_places_of image_places.now) image (sections_in table.now.bytes.now table.now.places.now)) (length table.now.places.now) }
{
    let sections = HeldTable::<Section>::of(table);
    check_records(
        table.places.len(),
        |k| image_fault(lengths, image_places, image, &sections, k),
    )
}

// ---- symbols

// The fault of symbol k.
fn symbol_fault(
    names: usize,
    heads: &HeldTable<Section>,
    symbols: &HeldTable<Symbol>,
    k: usize,
) -> Result<(), Refusal>
    requires { k < length symbols.now.table.places.now }
    ensures { meaning result ≡ record_check (symbol_fault names (sections_in heads.now.table.bytes.now heads.now.table.places.now) (symbols_in symbols.now.table.bytes.now symbols.now.table.places.now) k) k }
{
    let s = symbols.record(k);
    let home = section_or_none(&heads.table, s.section as usize);
    refuse_if(5, k, symbol_bad(s, names, heads.table.places.len(), home))
}

// Every symbol: "5 symbol: ..". `names` is a count, `heads` are the sections.
pub fn check_symbols(names: usize, heads: &Table, table: &Table) -> Result<(), Refusal>
    requires { AllHeld 15 heads.now.bytes.now heads.now.places.now × AllHeld 20 table.now.bytes.now table.now.places.now }
    ensures { meaning result ≡ records_check (symbol_fault names (sections_in heads.now.bytes.now heads.now.places.now) (symbols_in table.now.bytes.now table.now.places.now)) (length table.now.places.now) }
{
    let sections = HeldTable::<Section>::of(heads);
    let symbols = HeldTable::<Symbol>::of(table);
    check_records(
        table.places.len(),
        |k| symbol_fault(names, &sections, &symbols, k),
    )
}

// ---- relocations

// The fault of a relocation that follows others: `floors` has for each section one more than the address of its last one, 0 if there is none.
fn reloc_fault(
    heads: &HeldTable<Section>,
    symbols: usize,
    floors: &[u32],
    k: usize,
    r: Reloc,
) -> Result<(), Refusal>
    requires { k ≤ 4294967295 }
    ensures { meaning result ≡ record_check (reloc_fault_above (sections_in heads.now.table.bytes.now heads.now.table.places.now) symbols (get_or floors.now r.section 0) r) k }
{
    let home = section_or_none(&heads.table, r.section as usize);
    let floor = floors.get(r.section as usize).copied().unwrap_or(0);
    refuse_if(
        6,
        k,
        reloc_bad(r, heads.table.places.len(), symbols, home, floor),
    )
}

// Every relocation: "6 relocation: ..". `floors` is room for a number of each section; what it holds at first is of no matter.
pub fn check_relocs(
    heads: &Table,
    symbols: usize,
    table: &Table,
    floors: &mut [u32],
) -> Result<(), Refusal>
    requires { AllHeld 15 heads.now.bytes.now heads.now.places.now × AllHeld 23 table.now.bytes.now table.now.places.now × (length heads.now.places.now ≤ length floors.old) }
    ensures { meaning result ≡ records_check (reloc_fault (sections_in heads.now.bytes.now heads.now.places.now) symbols (relocs_in table.now.bytes.now table.now.places.now)) (length table.now.places.now) }
{
    let sections = HeldTable::<Section>::of(heads);
    let relocs = HeldTable::<Reloc>::of(table);
    floors.fill(0);
    for i in 0..table.places.len() {
        let r = relocs.record(i);
        reloc_fault(&sections, symbols, floors, i, r)?;
        floors[r.section as usize] = r.address + 1;
    }
    Ok(())
}

// ---- splits

// The fault of split k of a record file, or of the merge's partial list.
fn partial_fault(lengths: &[u8], table: &Table, k: usize) -> Result<(), Refusal>
    requires { AllHeld partial_width table.now.bytes.now table.now.places.now × (k < length table.now.places.now) }
    ensures { meaning result ≡ record_check (partial_fault lengths.now (partials_in table.now.bytes.now table.now.places.now) k) k }
{
    // 7 does not ask for its number
    let at = table.places[k] as usize;
    let s = read_partial(table.bytes, at, 65535);
    let unit_len = length_of(lengths, s.unit as usize);
    let rename_len = length_of(lengths, s.rename as usize);
    refuse_if(7, k, split_bad(s, unit_len, rename_len))
}

// Every split of a record file or a partial list, which "is checked as records": "7 split: ..".
pub fn check_partials(lengths: &[u8], table: &Table) -> Result<(), Refusal>
    requires { AllHeld partial_width table.now.bytes.now table.now.places.now }
    ensures { meaning result ≡ records_check (partial_fault lengths.now (partials_in table.now.bytes.now table.now.places.now)) (length table.now.places.now) }
{
    check_records(table.places.len(), |k| partial_fault(lengths, table, k))
}

// The split before split k; before the first one a split of zeros, which nothing falls below, so the first one needs no test of its own.
pub fn split_before(table: &Table, k: usize) -> Split
    requires { AllHeld split_width table.now.bytes.now table.now.places.now × (k < length table.now.places.now) }
    ensures { result ≡ split_before (splits_in table.now.bytes.now table.now.places.now) k }
{
    if k != 0 {
        return table.record::<Split>(k - 1);
    }
    Split::default()
}

// The fault of split k of a stage table.
fn split_fault(
    lengths: &[u8],
    heads: &HeldTable<Section>,
    splits: &HeldTable<Split>,
    k: usize,
) -> Result<(), Refusal>
    requires { k < length splits.now.table.places.now }
    ensures { meaning result ≡ record_check (split_fault lengths.now (sections_in heads.now.table.bytes.now heads.now.table.places.now) (splits_in splits.now.table.bytes.now splits.now.table.places.now) k) k }
{
    let s = splits.record(k);
    let unit_len = length_of(lengths, s.unit as usize);
    let rename_len = length_of(lengths, s.rename as usize);
    let home = section_or_none(&heads.table, s.section as usize);
    let before = split_before(&splits.table, k);
    let bad = split_bad(s, unit_len, rename_len);
    refuse_if(
        7,
        k,
        bad | split_misplaced(s, heads.table.places.len(), home, before),
    )
}

// Every split of a stage table: "7 split: ..; in stage tables also ..".
pub fn check_splits(lengths: &[u8], heads: &Table, table: &Table) -> Result<(), Refusal>
    requires { AllHeld 15 heads.now.bytes.now heads.now.places.now × AllHeld split_width table.now.bytes.now table.now.places.now }
    ensures { meaning result ≡ records_check (split_fault lengths.now (sections_in heads.now.bytes.now heads.now.places.now) (splits_in table.now.bytes.now table.now.places.now)) (length table.now.places.now) }
{
    let sections = HeldTable::<Section>::of(heads);
    let splits = HeldTable::<Split>::of(table);
    check_records(
        table.places.len(),
        |k| split_fault(lengths, &sections, &splits, k),
    )
}

// ---- units

// The fault of unit k.
fn unit_fault(lengths: &[u8], units: &HeldTable<Unit>, k: usize) -> Result<(), Refusal>
    requires { k < length units.now.table.places.now }
    ensures { meaning result ≡ record_check (unit_fault lengths.now (units_in units.now.table.bytes.now units.now.table.places.now) k) k }
{
    let u = units.record(k);
    refuse_if(8, k, unit_bad(u, length_of(lengths, u.name as usize)))
}

// Every unit: "8 unit: ..".
pub fn check_units(lengths: &[u8], table: &Table) -> Result<(), Refusal>
    requires { AllHeld 8 table.now.bytes.now table.now.places.now }
    ensures { meaning result ≡ records_check (unit_fault lengths.now (units_in table.now.bytes.now table.now.places.now)) (length table.now.places.now) }
{
    let units = HeldTable::<Unit>::of(table);
    check_records(table.places.len(), |k| unit_fault(lengths, &units, k))
}
