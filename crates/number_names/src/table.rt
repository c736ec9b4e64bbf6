// A lent name table: names that are known, to be looked up, and names that are being numbered.
ghost use Rattle.std.specs.Prelude.{◌≡◌, ◌*◌, length, take};
ghost use Rattle.number_names.specs.Numbers.{Known, Standing, Within, names_in};

use crate::Count;
use names::{NameIndex, Room};

// A name table that holds just its names, with their index.
#[derive(Clone, Copy)]
pub struct KnownNames<'e, 'b, 'h, 'c> {
    pub ends: &'e [u8],
    pub bytes: &'b [u8],
    pub index: NameIndex<'h, 'c>,
    pub ghost known: { Known (names_in ends.now bytes.now) ends.now bytes.now index.heads.now index.chain.now },
}

// A name table that is being made: the names that were numbered so far stand at its front, and there is place for at most so many names of so many bytes.
#[derive(Drop)]
pub struct NumberedNames<'e, 'b, 'h, 'c> {
    pub ends: &'e mut [u8],
    pub bytes: &'b mut [u8],
    pub heads: &'h mut [u16],
    pub chain: &'c mut [u16],
    pub count: Count,
    pub most: Room,
    pub ghost standing: { Standing ends.now bytes.now heads.now chain.now count.names count.used },
    pub ghost room: { Within most.names most.bytes (length ends.now) (length bytes.now) },
}

impl NumberedNames<'_, '_, '_, '_> {
    // The names so far.
    pub fn known(&self) -> KnownNames<'_, '_, '_, '_>
        ensures { (result.ends.now ≡ take (2 * self.now.count.names) self.now.ends.now)
            × (result.bytes.now ≡ take self.now.count.used self.now.bytes.now)
            × (result.index.heads.now ≡ self.now.heads.now)
            × (result.index.chain.now ≡ self.now.chain.now) }
    {
        let end = 2 * self.count.names;
        let used = self.count.used;
        KnownNames {
            ends: &self.ends[..end],
            bytes: &self.bytes[..used],
            index: NameIndex {
                heads: &*self.heads,
                chain: &*self.chain,
            },
        }
    }
}
