// What the sections and symbols of a file are taken from.
ghost use Rattle.std.specs.Prelude.{◌≡◌};
ghost use Rattle.elf_file.specs.File.{header_table, taken as taken_of};

use crate::measured::MeasuredNames;
use elf_file::ElfFile;
use import_rows::SectionNumbers;

// The file, all its sections that are taken over, and its names.
#[derive(Clone, Copy)]
pub struct Source<'f, 't, 'e, 'b, 'h, 'c, 'l> {
    pub file: ElfFile<'f>,
    pub taken: SectionNumbers<'t>,
    pub names: MeasuredNames<'e, 'b, 'h, 'c, 'l>,
    pub ghost all: { taken.numbers.now ≡ taken_of (header_table file.bytes.now) },
}
