// The record file: document 01, "Records and ceilings", "Refused, by place", Tables. "Records are checked in file order, .. each for 1, 2, then
// its kind's number". Nothing is copied: what is loaded are the places of the records' payloads. Each record is decided first, over columns that
// are only read, and then kept.
#![tactic(auto)]

mod kind;
mod reading;

ghost use Rattle.std.specs.Prelude.{◌≡◌, ◌+◌, ◌≤◌, ◌<◌, length, get_or, set, take, drop};
ghost use Rattle.lists.specs.Rows.{clear_from};
ghost use Rattle.fields.specs.Fields.{le16, le32};
ghost use Rattle.obj.specs.Nothing.{no_section};
ghost use Rattle.obj.specs.Records.{reloc_at};
ghost use Rattle.names.specs.Index.{Sought};
ghost use Rattle.tables.specs.Records.{sections_in};
ghost use Rattle.load.specs.Load.{nothing, names_in, name_number, section_length, section_number, symbol_number, reloc_number, split_number, unit_number, kind_number, record_number, load_from, load_of};
ghost use Rattle.load.specs.Kinds.{code_of, Decided};
ghost use Rattle.load.specs.Reading.{so_far, fault_in, loaded_in, SameColumns, ReadyIn, KeptIn, LoadsIn};
ghost use Rattle.load.specs.Columns.{part, tables_in, floors_in, no_counts, fault_as, one_more, slot_of, Room, Ready, Counted, RelocFits, Kept, Loads};

use faults::{reloc_bad, section_bad, split_bad, symbol_bad, unit_bad};
use fields::Field;
use frames::{is_cut, next_at};
use kind::Kind;
use names::{Names, bad_name, bucket_of, clear_heads, enter, find};
use obj::{
    PARTIAL_BYTES, Record, Refusal, Reloc, Section, Symbol, Table, Unit, read_partial, refuse,
};
use reading::{Columns, Payload, SoFar};
pub use tables::Counts;
use tables::{Ceilings, length_of, section_or_none};

// Where the parts of the column of places start: 64 sections, 4,096 symbols, 4,096 relocations, 1,024 splits, 1,024 units, 4,096 names, and
// for each section one more than the address of its last relocation. One column with parts, and not seven: there is no heap, so each column that is written is one more slice
// that every caller makes, lends and says is the same afterwards; and where a record goes is one place in one column (`slot_of`), whatever its kind.
pub const SECTIONS: usize = 0;

pub const SYMBOLS: usize = 64;

pub const RELOCATIONS: usize = 4160;

pub const SPLITS: usize = 8256;

pub const UNITS: usize = 9280;

pub const NAMES: usize = 10304;

pub const FLOORS: usize = 14400;

pub const PLACES: usize = 14464;

// So many places of the column, from a base on: the part of a kind, where the base is its own.
pub fn part(places: &[u32], base: usize, n: usize) -> &[u32]
    requires { base + n ≤ length places.now }
    ensures { result.now ≡ part base n places.now }
{
    let end = base + n;
    &places[base..end]
}

// As `tables::main_ceilings`, other numbers of one struct, which the definitions have under this name.
fn no_counts() -> Counts
    ensures { result ≡ no_counts }
{
    Counts::default()
}

// ---- what a record refers to

// The length of name k, 0 of one that is not among the names so far, as `tables::length_of` gives it.
fn name_length(before: &SoFar, k: u16) -> usize
    ensures { result ≡ get_or (take before.now.counts.names before.now.lengths.now) k 0 }
{
    let n = before.counts.names;
    length_of(&before.lengths[..n], k as usize)
}

// Section k of those so far, or an empty one, as `tables::section_or_none` gives it.
fn home_of(before: &SoFar, k: u16) -> Section
    ensures { result ≡ get_or (sections_in before.now.file.now (part 0 before.now.counts.sections before.now.places.now)) k no_section }
{
    section_or_none(
        &Table {
            bytes: before.file,
            places: part(before.places, SECTIONS, before.counts.sections),
        },
        k as usize,
    )
}

// One more than the address of the last relocation of section k, 0 if there is none.
#[tactic(auto, unfolding(crate::specs::Columns::part))]
fn floor_of(before: &SoFar, k: u16) -> u32
    ensures { result ≡ get_or (floors_in before.now.places.now) k 0 }
{
    before.places[FLOORS..PLACES]
        .get(usize::from(k))
        .copied()
        .unwrap_or(0)
}

// The number of the name that the payload is, if it is one of the names so far. Inlined: a reference into what is loaded so far, handed to a call, keeps all
// of it in memory, and loading 1,024 bare splits takes half as many instructions again.
#[inline(always)]
fn find_name(payload: &Payload) -> Option<usize>
    ensures { Sought (names_in payload.now.before.file.now (so_far payload.now.before)) (take payload.now.len (drop payload.now.at payload.now.before.file.now)) result }
{
    let before = &payload.before;
    let known = before.counts.names;
    let end = NAMES + known;
    let past = payload.at + payload.len;
    find(
        &Names {
            bytes: before.file,
            places: &before.places[NAMES..end],
            lengths: &before.lengths[..known],
        },
        known,
        &before.index,
        &before.file[payload.at..past],
    )
}

// ---- the number of a record's first fault, as the error: "1, 2, then its kind's number". No common function stands for them: each kind reads its own record, looks up other
// numbers, and asks other columns.

// "3 name byte or length"; "a repeated name adds none", so it is never 2 or 3.
fn name_number(payload: &Payload) -> Result<(), u16>
    ensures { result ≡ fault_in name_number payload.now }
{
    if find_name(payload).is_some() {
        return Ok(());
    }
    let before = &payload.before;
    if before.most.names <= before.counts.names {
        return Err(2);
    }
    let past = payload.at + payload.len;
    if bad_name(&before.file[payload.at..past]) {
        return Err(3);
    }
    Ok(())
}

// "then its bytes unless kind 3", "Section bytes equal size": the length is another one.
fn section_length_wrong(payload: &Payload) -> bool
    ensures { result ≡ section_length payload.now.before.file.now payload.now.at payload.now.len }
{
    if payload.len < 15 {
        return true;
    }
    let s = Section::read(payload.before.file, payload.at);
    if s.is_bss() {
        return payload.len != 15;
    }
    payload.len != 15 + (s.size as usize)
}

// "4 section: .."
fn section_number(payload: &Payload) -> Result<(), u16>
    ensures { result ≡ fault_in section_number payload.now }
{
    if section_length_wrong(payload) {
        return Err(1);
    }
    let before = &payload.before;
    if before.most.sections <= before.counts.sections {
        return Err(2);
    }
    let s = Section::read(before.file, payload.at);
    if section_bad(s, name_length(before, s.name)) {
        return Err(4);
    }
    Ok(())
}

// "5 symbol: .."
fn symbol_number(payload: &Payload) -> Result<(), u16>
    ensures { result ≡ fault_in symbol_number payload.now }
{
    if payload.len != 20 {
        return Err(1);
    }
    let before = &payload.before;
    let n = before.counts;
    if before.most.symbols <= n.symbols {
        return Err(2);
    }
    let s = Symbol::read(before.file, payload.at);
    if symbol_bad(s, n.names, n.sections, home_of(before, s.section)) {
        return Err(5);
    }
    Ok(())
}

// "6 relocation: .."
fn reloc_number(payload: &Payload) -> Result<(), u16>
    ensures { result ≡ fault_in reloc_number payload.now }
{
    if payload.len != 23 {
        return Err(1);
    }
    let before = &payload.before;
    let n = before.counts;
    if before.most.relocations <= n.relocations {
        return Err(2);
    }
    let r = Reloc::read(before.file, payload.at);
    let home = home_of(before, r.section);
    let floor = floor_of(before, r.section);
    if reloc_bad(r, n.sections, n.symbols, home, floor) {
        return Err(6);
    }
    Ok(())
}

// "7 split: .."; "a split's section is left to 20"
fn split_number(payload: &Payload) -> Result<(), u16>
    ensures { result ≡ fault_in split_number payload.now }
{
    if payload.len != PARTIAL_BYTES {
        return Err(1);
    }
    let before = &payload.before;
    if before.most.splits <= before.counts.splits {
        return Err(2);
    }
    // 7 does not ask for its number
    let s = read_partial(before.file, payload.at, 65535);
    let unit_len = name_length(before, s.unit);
    let rename_len = name_length(before, s.rename);
    if split_bad(s, unit_len, rename_len) {
        return Err(7);
    }
    Ok(())
}

// "8 unit: .."
fn unit_number(payload: &Payload) -> Result<(), u16>
    ensures { result ≡ fault_in unit_number payload.now }
{
    if payload.len != 8 {
        return Err(1);
    }
    let before = &payload.before;
    if before.most.units <= before.counts.units {
        return Err(2);
    }
    let u = Unit::read(before.file, payload.at);
    if unit_bad(u, name_length(before, u.name)) {
        return Err(8);
    }
    Ok(())
}

// By kind.
#[tactic(auto, unfolding(crate::specs::Load::kind_number))]
fn kind_number(kind: Kind, payload: &Payload) -> Result<(), u16>
    ensures { result ≡ fault_in (λ c file at len t. kind_number c file at len t (code_of kind)) payload.now }
{
    match kind {
        Kind::Name => name_number(payload),
        Kind::Section => section_number(payload),
        Kind::Symbol => symbol_number(payload),
        Kind::Relocation => reloc_number(payload),
        Kind::Split => split_number(payload),
        Kind::Unit => unit_number(payload),
    }
}

// The record at `at`: "a four-byte length of its payload, a two-byte kind, the payload"; "1 file cut" within its head or its payload. The answer is its kind.
fn record_number(before: &SoFar, at: usize) -> Result<Kind, u16>
    requires { at ≤ length before.now.file.now }
    ensures { Decided (record_number before.now.most before.now.file.now at (so_far before.now)) (le16 before.now.file.now (at + 4)) result }
{
    let file = before.file;
    if is_cut(file, at) {
        return Err(1);
    }
    let len = u32::get(file, at) as usize;
    let kind = Kind::try_from(u16::get(file, at + 4))?;
    let payload = Payload {
        before: *before,
        at: at + 6,
        len,
    };
    kind_number(kind, &payload)?;
    Ok(kind)
}

// ---- a record without a fault is kept

// One record more of a kind.
fn one_more(kind: Kind, n: Counts) -> Counts
    requires { Counted n }
    ensures { result ≡ one_more (code_of kind) n }
{
    match kind {
        Kind::Name => Counts {
            names: n.names + 1,
            ..n
        },
        Kind::Section => Counts {
            sections: n.sections + 1,
            ..n
        },
        Kind::Symbol => Counts {
            symbols: n.symbols + 1,
            ..n
        },
        Kind::Relocation => Counts {
            relocations: n.relocations + 1,
            ..n
        },
        Kind::Split => Counts {
            splits: n.splits + 1,
            ..n
        },
        Kind::Unit => Counts {
            units: n.units + 1,
            ..n
        },
    }
}

// Where the place of the next record of a kind goes.
#[tactic(auto, unfolding(crate::specs::Columns::slot_of))]
fn slot_of(kind: Kind, n: Counts) -> usize
    requires { Counted n }
    ensures { result ≡ slot_of (code_of kind) n }
{
    match kind {
        Kind::Name => NAMES + n.names,
        Kind::Section => SECTIONS + n.sections,
        Kind::Symbol => SYMBOLS + n.symbols,
        Kind::Relocation => RELOCATIONS + n.relocations,
        Kind::Split => SPLITS + n.splits,
        Kind::Unit => UNITS + n.units,
    }
}

// The place of a record's payload.
fn keep_place(kind: Kind, at: usize, n: Counts, places: &mut [u32]) -> Counts
    requires { Counted n × (at ≤ 65536) × (slot_of (code_of kind) n < length places.old) }
    ensures { (result ≡ one_more (code_of kind) n) × (places.new ≡ set places.old (slot_of (code_of kind) n) at) }
{
    let i = slot_of(kind, n);
    places[i] = at as u32;
    one_more(kind, n)
}

// A relocation's place, and one more than its address as the floor of its section.
fn keep_reloc(file: &[u8], at: usize, n: Counts, places: &mut [u32]) -> Counts
    requires { Counted n × (at ≤ 65536) × RelocFits file.now at places.old n }
    ensures { (result ≡ one_more 4 n)
        × (places.new ≡ set (set places.old (14400 + (reloc_at file.now at).section) ((reloc_at file.now at).address + 1)) (slot_of 4 n) at) }
{
    let r = Reloc::read(file, at);
    let i = FLOORS + (r.section as usize);
    places[i] = r.address + 1;
    keep_place(Kind::Relocation, at, n, places)
}

// A new name's place and length, and its entry in the index; nothing for a repeated one.
fn keep_name(at: usize, len: usize, columns: &mut Columns)
    requires { (at + len ≤ length columns.old.file.now)
        × ReadyIn columns.old
        × (name_number columns.old.most columns.old.file.now at len (loaded_in columns.old) ≡ 0) }
    ensures { SameColumns columns.old columns.new × KeptIn at len 1 (loaded_in columns.old) columns.new }
{
    let before = columns.so_far();
    if find_name(&Payload { before, at, len }).is_some() {
        return;
    }
    let known = columns.counts.names;
    let past = at + len;
    let bucket = bucket_of(&columns.file[at..past]);
    columns.lengths[known] = len as u8;
    enter(columns.heads, columns.chain, bucket, known);
    columns.counts = keep_place(Kind::Name, at, columns.counts, columns.places);
}

// By kind.
fn keep_kind(kind: Kind, at: usize, len: usize, columns: &mut Columns)
    requires { (at + len ≤ length columns.old.file.now)
        × ReadyIn columns.old
        × (kind_number columns.old.most columns.old.file.now at len (loaded_in columns.old) (code_of kind) ≡ 0) }
    ensures { SameColumns columns.old columns.new × KeptIn at len (code_of kind) (loaded_in columns.old) columns.new }
{
    let n = columns.counts;
    match kind {
        Kind::Name => keep_name(at, len, columns),
        Kind::Relocation => columns.counts = keep_reloc(columns.file, at, n, columns.places),
        _ => columns.counts = keep_place(kind, at, n, columns.places),
    }
}

// The record at `at`, of this kind.
fn keep_record(kind: Kind, at: usize, columns: &mut Columns)
    requires { ReadyIn columns.old
        × (record_number columns.old.most columns.old.file.now at (loaded_in columns.old) ≡ 0)
        × (code_of kind ≡ le16 columns.old.file.now (at + 4)) }
    ensures { SameColumns columns.old columns.new
        × KeptIn (at + 6) (le32 columns.old.file.now at) (le16 columns.old.file.now (at + 4)) (loaded_in columns.old) columns.new }
{
    let len = u32::get(columns.file, at) as usize;
    keep_kind(kind, at + 6, len, columns);
}

// ---- the whole file

// The records in file order, up to the first that has a fault.
fn load_records(columns: &mut Columns) -> Result<Counts, Refusal>
    requires { ReadyIn columns.old × (columns.old.counts ≡ no_counts) }
    ensures { SameColumns columns.old columns.new
        × LoadsIn (load_from (length columns.old.file.now) columns.old.most columns.old.file.now 0 0 nothing) result columns.new }
{
    let mut at = 0;
    let mut r = 0;
    // no count: each record says where the next one starts
    while at < columns.file.len() {
        let kind = record_number(&columns.so_far(), at).map_err(|number| Refusal::new(
            number, 0, r,
        ))?;
        keep_record(kind, at, columns);
        at = next_at(columns.file, at);
        r += 1;
    }
    Ok(columns.counts)
}

// No relocation so far: zeros from the floors on.
fn clear_floors(places: &mut [u32])
    requires { 14464 ≤ length places.old }
    ensures { places.new ≡ clear_from 0 14400 places.old }
{
    places[FLOORS..].fill(0);
}

// Loads the file: how many records of each kind it has, and in the columns where they are. The columns come as each caller has them, with lengths of their own: they are one
// struct from here on.
pub fn load_file(
    file: &[u8],
    c: Ceilings,
    places: &mut [u32],
    lengths: &mut [u8],
    heads: &mut [u16],
    chain: &mut [u16],
) -> Result<Counts, Refusal>
    requires { Room c places.old lengths.old heads.old chain.old }
    ensures { Loads c file.now (load_of c file.now) result places.new lengths.new heads.new chain.new }
{
    if 65536 < file.len() {
        return refuse(1, 0, 0);
    }
    clear_floors(places);
    clear_heads(heads);
    let mut columns = Columns {
        file,
        most: c,
        counts: no_counts(),
        places,
        lengths,
        heads,
        chain,
    };
    load_records(&mut columns)
}
