// The structures of an ELF32 file, most significant byte first, by the System V ABI: the ELF header, a section header, a symbol table entry and a string of a string
// table, each read where it stands in lent bytes.
#![tactic(auto)]

ghost use Rattle.std.specs.Prelude.{◌≡◌, ◌+◌, ◌≤◌, length};
ghost use Rattle.elf.specs.Elf.{header_at, section_header_at, symbol_entry_at};
ghost use Rattle.elf.specs.Strings.{string_at, Spanned, EndedBelow};

use big_endian::BigField;
use obj::Record;

// The ELF header, 52 bytes. `magic` is e_ident[0..4] as one number, `class` e_ident[4], `order` e_ident[5]; the others are the ABI's without their `e_`, but `kind` is e_type.
#[derive(Clone, Copy)]
pub struct Header {
    pub magic: u32,
    pub class: u8,
    pub order: u8,
    pub kind: u16,
    pub machine: u16,
    pub version: u32,
    pub entry: u32,
    pub phoff: u32,
    pub shoff: u32,
    pub flags: u32,
    pub ehsize: u16,
    pub phentsize: u16,
    pub phnum: u16,
    pub shentsize: u16,
    pub shnum: u16,
    pub shstrndx: u16,
}

// A section header, 40 bytes: the ABI's members without their `sh_`, but `kind` is sh_type.
#[derive(Clone, Copy)]
pub struct SectionHeader {
    pub name: u32,
    pub kind: u32,
    pub flags: u32,
    pub addr: u32,
    pub offset: u32,
    pub size: u32,
    pub link: u32,
    pub info: u32,
    pub addralign: u32,
    pub entsize: u32,
}

// A symbol table entry, 16 bytes: the ABI's members without their `st_`.
#[derive(Clone, Copy)]
pub struct SymbolEntry {
    pub name: u32,
    pub value: u32,
    pub size: u32,
    pub info: u8,
    pub other: u8,
    pub shndx: u16,
}

// ---- the ABI's numbers that are asked

// "sh_type"
pub const SHT_SYMTAB: u32 = 2;

pub const SHT_NOBITS: u32 = 8;

// "sh_flags"
pub const SHF_WRITE: u32 = 1;

pub const SHF_ALLOC: u32 = 2;

pub const SHF_EXECINSTR: u32 = 4;

// "st_shndx": no section, and where the reserved numbers start.
pub const SHN_UNDEF: u16 = 0;

pub const SHN_LORESERVE: u16 = 0xFF00;

// The lower four bits of "st_info".
pub const STT_OBJECT: u8 = 1;

pub const STT_FUNC: u8 = 2;

pub const STT_SECTION: u8 = 3;

// .. and its upper four.
pub const STB_LOCAL: u8 = 0;

// ---- the structures

// The header of a file. It stands at its front and nowhere else, so it is no `Record`, which has a place.
#[tactic(auto, unfolding(crate::specs::Elf::header_at))]
pub fn read_header(b: &[u8]) -> Header
    requires { 52 ≤ length b.now }
    ensures { result ≡ header_at b.now }
{
    Header {
        magic: u32::get_be(b, 0),
        class: b[4],
        order: b[5],
        kind: u16::get_be(b, 16),
        machine: u16::get_be(b, 18),
        version: u32::get_be(b, 20),
        entry: u32::get_be(b, 24),
        phoff: u32::get_be(b, 28),
        shoff: u32::get_be(b, 32),
        flags: u32::get_be(b, 36),
        ehsize: u16::get_be(b, 40),
        phentsize: u16::get_be(b, 42),
        phnum: u16::get_be(b, 44),
        shentsize: u16::get_be(b, 46),
        shnum: u16::get_be(b, 48),
        shstrndx: u16::get_be(b, 50),
    }
}

impl Record for SectionHeader {
    ghost WIDTH = { 40 };

    const WIDTH: usize = 40;

    ghost stored = { section_header_at };

    #[tactic(auto, unfolding(crate::specs::Elf::section_header_at))]
    fn read(b: &[u8], at: usize) -> SectionHeader {
        SectionHeader {
            name: u32::get_be(b, at),
            kind: u32::get_be(b, at + 4),
            flags: u32::get_be(b, at + 8),
            addr: u32::get_be(b, at + 12),
            offset: u32::get_be(b, at + 16),
            size: u32::get_be(b, at + 20),
            link: u32::get_be(b, at + 24),
            info: u32::get_be(b, at + 28),
            addralign: u32::get_be(b, at + 32),
            entsize: u32::get_be(b, at + 36),
        }
    }
}

impl Record for SymbolEntry {
    ghost WIDTH = { 16 };

    const WIDTH: usize = 16;

    ghost stored = { symbol_entry_at };

    #[tactic(auto, unfolding(crate::specs::Elf::symbol_entry_at))]
    fn read(b: &[u8], at: usize) -> SymbolEntry {
        SymbolEntry {
            name: u32::get_be(b, at),
            value: u32::get_be(b, at + 4),
            size: u32::get_be(b, at + 8),
            info: b[at + 12],
            other: b[at + 13],
            shndx: u16::get_be(b, at + 14),
        }
    }
}

// ---- strings

// How many bytes the string at `at` has: those before the first NUL.
fn string_length(table: &[u8], at: usize) -> usize
    requires { at ≤ length table.now }
    ensures { Spanned table.now at result }
{
    table[at..]
        .iter()
        .position(|byte| *byte == 0)
        .unwrap_or(table.len() - at)
}

// The string at `at`: a part of its table, without the NUL; past the table the empty one.
pub fn string_at<'a>(table: &'a [u8], at: usize) -> &'a [u8]
    ensures { result.now ≡ string_at table.now at }
{
    if table.len() < at {
        return &[];
    }
    let end = at + string_length(table, at);
    &table[at..end]
}

// One more than the place of the last NUL: a string that starts below it ends in the table, and no other does.
pub fn ended_below(table: &[u8]) -> usize
    ensures { EndedBelow table.now result }
{
    table
        .iter()
        .rposition(|byte| *byte == 0)
        .map_or(0, |k| k + 1)
}
