// The columns that hold what is loaded, and what the decision on a record reads of them.
ghost use Rattle.std.specs.Prelude.{◌≡◌, ◌+◌, ◌≤◌, length};
ghost use Rattle.load.specs.Columns.{Readable};

use crate::Counts;
use names::NameIndex;
use tables::Ceilings;

// What is loaded so far of a file, in columns that are only read.
#[derive(Clone, Copy)]
pub struct SoFar<'f, 'p, 'l, 'h, 'c> {
    pub file: &'f [u8],
    pub most: Ceilings,
    pub counts: Counts,
    pub places: &'p [u32],
    pub lengths: &'l [u8],
    pub index: NameIndex<'h, 'c>,
    pub ghost readable: { Readable most file.now counts places.now lengths.now index.heads.now index.chain.now },
}

// The payload of the record after those that are loaded: where it starts in the file, and its length.
#[derive(Clone, Copy)]
pub struct Payload<'f, 'p, 'l, 'h, 'c> {
    pub before: SoFar<'f, 'p, 'l, 'h, 'c>,
    pub at: usize,
    pub len: usize,
    pub ghost inside: { at + len ≤ length before.file.now },
}

// A file, how many records it may have and how many are loaded so far, and the columns that hold these: the places of all records, the lengths of the names, and the index of the
// names. What they hold (`ReadyIn`) is no ghost field: it does not hold between the writes that keep a record.
#[derive(Drop)]
pub struct Columns<'f, 'p, 'l, 'h, 'c> {
    pub file: &'f [u8],
    pub most: Ceilings,
    pub counts: Counts,
    pub places: &'p mut [u32],
    pub lengths: &'l mut [u8],
    pub heads: &'h mut [u16],
    pub chain: &'c mut [u16],
}

impl Columns<'_, '_, '_, '_, '_> {
    // The same, to be read.
    pub fn so_far(&self) -> SoFar<'_, '_, '_, '_, '_>
        requires { Readable self.now.most self.now.file.now self.now.counts self.now.places.now self.now.lengths.now self.now.heads.now self.now.chain.now }
        ensures { (result.file.now ≡ self.now.file.now)
            × (result.most ≡ self.now.most)
            × (result.counts ≡ self.now.counts)
            × (result.places.now ≡ self.now.places.now)
            × (result.lengths.now ≡ self.now.lengths.now) }
    {
        SoFar {
            file: self.file,
            most: self.most,
            counts: self.counts,
            places: &*self.places,
            lengths: &*self.lengths,
            index: NameIndex {
                heads: &*self.heads,
                chain: &*self.chain,
            },
        }
    }
}
