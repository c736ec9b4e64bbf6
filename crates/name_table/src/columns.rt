// The names of a table in lent columns. A struct with a ghost field imports all that its file does, so it stands in a file of its own.
ghost use Rattle.std.specs.Prelude.{◌≡◌};
ghost use Rattle.name_table.specs.Stored.{Room};

use names::{NameIndex, Names};

// Where each name starts and how long it is, and the index of the names.
#[derive(Drop)]
pub struct NameColumns<'p, 'l, 'h, 'c> {
    pub places: &'p mut [u32],
    pub lengths: &'l mut [u8],
    pub heads: &'h mut [u16],
    pub chain: &'c mut [u16],
    pub ghost room: { Room 4096 places.now lengths.now heads.now chain.now },
}

impl NameColumns<'_, '_, '_, '_> {
    // The columns as names with these bytes, to read.
    pub fn names<'a>(&'a self, bytes: &'a [u8]) -> Names<'a, 'a, 'a>
        ensures { (result.bytes.now ≡ bytes.now)
            × (result.places.now ≡ self.now.places.now)
            × (result.lengths.now ≡ self.now.lengths.now) }
    {
        Names {
            bytes,
            places: &*self.places,
            lengths: &*self.lengths,
        }
    }

    // Their index, to read.
    pub fn index(&self) -> NameIndex<'_, '_>
        ensures { (result.heads.now ≡ self.now.heads.now) × (result.chain.now ≡ self.now.chain.now) }
    {
        NameIndex {
            heads: &*self.heads,
            chain: &*self.chain,
        }
    }
}
