// The names of an ELF file's sections and symbols, numbered by first use in a lent name table.
#![tactic(auto)]

ghost use Rattle.std.specs.Prelude.{◌≡◌, List, ℕ, ◌<◌, length, eqb};
ghost use Rattle.lists.specs.Rows.{some};
ghost use Rattle.elf.specs.Strings.{string_at};
ghost use Rattle.elf_file.specs.File.{count, header_of};
ghost use Rattle.number_names.specs.Numbers.{enter_name, enter_names};
ghost use Rattle.number_names.specs.Tables.{room_of, SameTable, HeldBy, EnteredBy};
ghost use Rattle.elf_names.specs.Names.{section_names, symbol_names, enter_section};
ghost use Rattle.elf_names.specs.Seen.{Seen, EnteredSeen};

use elf::{SectionHeader, SymbolEntry, string_at};
use elf_file::{header_of, is_allocated};
use number_names::{NumberedNames, enter_name};
use obj::{Record, Refusal, record_in};

// ---- offsets whose strings are among the names
//
// A string is read to its end, hashed and compared each time it is entered, and a file may have many symbols of one very long name. So the last offsets that were entered are
// kept, each as one more than it is, and a string at one of them is not looked at again.

// The offset is one of those kept.
fn is_seen(seen: &[usize], mark: usize) -> bool
    ensures { result ≡ some (λ k. eqb k mark) seen.now }
{
    seen.contains(&mark)
}

// Enters the string at an offset of a string table, unless it is among the names since the offset is kept.
fn enter_string(
    strings: &[u8],
    at: u32,
    seen: &mut [usize],
    slot: usize,
    names: &mut NumberedNames,
) -> Result<(), Refusal>
    requires { slot < length seen.old }
    ensures { SameTable names.old names.new
        × ((held : List (List ℕ)) (ends₀ bytes₀ : List ℕ)
        → HeldBy held ends₀ bytes₀ names.old
        → Seen strings.now held seen.old
        → EnteredSeen (enter_name (room_of names.old) held (string_at strings.now at)) strings.now ends₀ bytes₀ names.new seen.new result) }
{
    let mark = at as usize + 1;
    if is_seen(seen, mark) {
        return Ok(());
    }
    seen[slot] = mark;
    enter_name(string_at(strings, at as usize), names)
}

// ---- sections

// The name of section k, if it is allocated.
fn enter_section(
    headers: &[u8],
    strings: &[u8],
    k: usize,
    seen: &mut [usize],
    slot: usize,
    names: &mut NumberedNames,
) -> Result<(), Refusal>
    requires { (k < count headers.now) × (slot < length seen.old) }
    ensures { SameTable names.old names.new
        × ((held : List (List ℕ)) (ends₀ bytes₀ : List ℕ)
        → HeldBy held ends₀ bytes₀ names.old
        → Seen strings.now held seen.old
        → EnteredSeen (enter_section (room_of names.old) strings.now held (header_of headers.now k)) strings.now ends₀ bytes₀ names.new seen.new result) }
{
    let h = header_of(headers, k);
    if is_allocated(h) {
        return enter_string(strings, h.name, seen, slot, names);
    }
    Ok(())
}

// The names of the allocated sections, in order.
pub fn enter_sections(
    headers: &[u8],
    strings: &[u8],
    names: &mut NumberedNames,
) -> Result<(), Refusal>
    ensures { SameTable names.old names.new
        × ((held : List (List ℕ)) (ends₀ bytes₀ : List ℕ)
        → HeldBy held ends₀ bytes₀ names.old
        → EnteredBy (enter_names (room_of names.old) held (section_names headers.now strings.now)) ends₀ bytes₀ names.new result) }
{
    let n = headers.len() / SectionHeader::WIDTH;
    let mut seen = [0usize; 64];
    // by number: a header is read at its number, which also picks its slot
    for i in 0..n {
        enter_section(headers, strings, i, &mut seen, i % 64, names)?;
    }
    Ok(())
}

// ---- symbols

// The names of the symbols, in order, without the null one. This is no twin of `enter_sections`: each entry is a name, and the null one is left out.
pub fn enter_symbols(table: &[u8], strings: &[u8], names: &mut NumberedNames) -> Result<(), Refusal>
    ensures { SameTable names.old names.new
        × ((held : List (List ℕ)) (ends₀ bytes₀ : List ℕ)
        → HeldBy held ends₀ bytes₀ names.old
        → EnteredBy (enter_names (room_of names.old) held (symbol_names table.now strings.now)) ends₀ bytes₀ names.new result) }
{
    let n = table.len() / SymbolEntry::WIDTH;
    let mut seen = [0usize; 64];
    // by number, as the sections
    for i in 1..n {
        let s: SymbolEntry = record_in(table, i);
        enter_string(strings, s.name, &mut seen, i % 64, names)?;
    }
    Ok(())
}
