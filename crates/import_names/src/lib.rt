// All names of an ELF file, "numbered by first use, sections first", in the lent name table.
#![tactic(auto)]

ghost use Rattle.std.specs.Prelude.{◌≡◌, [], List, ℕ, length};
ghost use Rattle.number_names.specs.Tables.{room_of, SameTable, HeldBy, EnteredBy};
ghost use Rattle.import.specs.Import.{names_of};
ghost use Rattle.import_names.specs.Numbered.{name_room, Numbered};

use elf_file::{
    ElfFile, header_table, section_bytes, section_strings, symbol_strings, symbol_table,
};
use elf_names::{enter_sections, enter_symbols};
use names::Room;
use number_names::{Count, NumberedNames};
use obj::Refusal;
use stage_names::{bytes_room, names_room};

// A name has no place: the refusal, and how many names of how many bytes have one before it.
#[derive(Clone, Copy)]
pub struct Full {
    pub refusal: Refusal,
    pub count: Count,
}

impl From<Full> for Refusal {
    ghost from_gives = { λ full r. r ≡ full.refusal };

    fn from(full: Full) -> Refusal {
        full.refusal
    }
}

// All names of a file, in a table that has no name yet.
fn number_in(file: &ElfFile, names: &mut NumberedNames) -> Result<(), Refusal>
    ensures { SameTable names.old names.new
        × ((ends₀ bytes₀ : List ℕ)
        → HeldBy [] ends₀ bytes₀ names.old
        → EnteredBy (names_of file.now.bytes.now (room_of names.old)) ends₀ bytes₀ names.new result) }
{
    let headers = header_table(file);
    enter_sections(headers, section_strings(file), names)?;
    let table = section_bytes(file.bytes, symbol_table(headers));
    enter_symbols(table, symbol_strings(file), names)
}

// All names of a file, with an index of its own. The two outputs are the entry's, each with a length of its own.
pub fn number_all(
    file: &ElfFile,
    name_ends: &mut [u8],
    name_bytes: &mut [u8],
) -> Result<Count, Full>
    ensures { Numbered (names_of file.now.bytes.now (name_room (length name_ends.old) (length name_bytes.old))) name_ends.old name_bytes.old name_ends.new name_bytes.new result }
{
    let mut heads = [0u16; 8192];
    let mut chain = [0u16; 4096];
    let most = Room {
        names: names_room(name_ends.len()),
        bytes: bytes_room(name_bytes.len()),
    };
    let mut names = NumberedNames {
        ends: name_ends,
        bytes: name_bytes,
        heads: &mut heads,
        chain: &mut chain,
        count: Count { names: 0, used: 0 },
        most,
    };
    match number_in(file, &mut names) {
        Ok(()) => Ok(names.count),
        Err(refusal) => Err(Full {
            refusal,
            count: names.count,
        }),
    }
}
