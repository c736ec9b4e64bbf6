// The names of a table in arrays of an entry's own: there is no heap, and 4,096 is the ceiling of all stages.
ghost use Rattle.std.specs.Prelude.{◌≡◌, ◌/◌, ◌≤◌, length, replicate};
ghost use Rattle.obj.specs.Answers.{meaning};
ghost use Rattle.name_table.specs.NameTable.{names_check};
ghost use Rattle.name_table.specs.Stored.{name_starts, stage_lengths};
ghost use Rattle.name_table.specs.Columns.{StoredOwn, StoresOwn, ReadableIn};

use crate::check_names;
use crate::columns::NameColumns;
use names::{NameIndex, Names};
use obj::Refusal;

// Where each name starts and how long it is, and the index of the names.
#[derive(Drop)]
pub struct NameArrays {
    pub places: [u32; 4096],
    pub lengths: [u8; 4096],
    pub heads: [u16; 8192],
    pub chain: [u16; 4096],
}

impl NameArrays {
    // No name, and nothing in the index.
    pub fn new() -> NameArrays
        ensures { result ≡ record { places = replicate 4096 0; lengths = replicate 4096 0; heads = replicate 8192 0; chain = replicate 4096 0 } }
    {
        NameArrays {
            places: [0; 4096],
            lengths: [0; 4096],
            heads: [0; 8192],
            chain: [0; 4096],
        }
    }

    // The whole table, with all its checks; the arrays then hold its names.
    pub fn check(&mut self, ends: &[u8], bytes: &[u8], ceiling: usize) -> Result<(), Refusal>
        requires { ceiling ≤ 4096 }
        ensures { StoresOwn (meaning result) (names_check ceiling ends.now bytes.now) ends.now bytes.now self.new (length ends.now / 2) }
    {
        check_names(
            ends,
            bytes,
            ceiling,
            &mut NameColumns {
                places: &mut self.places,
                lengths: &mut self.lengths,
                heads: &mut self.heads,
                chain: &mut self.chain,
            },
        )
    }

    // The names of a table that passed.
    pub fn names<'a>(&'a self, ends: &[u8], bytes: &'a [u8]) -> Names<'a, 'a, 'a>
        requires { StoredOwn ends.now bytes.now self.now (length ends.now / 2) }
        ensures bytes { result.bytes.now ≡ bytes.now }
        ensures places { result.places.now ≡ name_starts ends.now (length ends.now / 2) }
        ensures lengths { result.lengths.now ≡ stage_lengths ends.now bytes.now }
        ensures readable { ReadableIn result }
    {
        let n = ends.len() / 2;
        Names {
            bytes,
            places: &self.places[..n],
            lengths: &self.lengths[..n],
        }
    }

    // Their index.
    pub fn index(&self) -> NameIndex<'_, '_>
        ensures { (result.heads.now ≡ self.now.heads) × (result.chain.now ≡ self.now.chain) }
    {
        NameIndex {
            heads: &self.heads,
            chain: &self.chain,
        }
    }
}
