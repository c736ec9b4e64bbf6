// The names that are added, in columns to write. A struct with a ghost field imports all that its file does, so it stands in a file of its own.
ghost use Rattle.std.specs.Prelude.{◌≡◌, ◌≤◌};
ghost use Rattle.gap_splits.specs.Added.{beside, Stand};

use names::Room;

// The names that are added beside those of the tables: `count` of them, with `used` bytes in all, of at most `most`.
#[derive(Drop)]
pub struct AddedNames<'b, 'p, 'l> {
    pub bytes: &'b mut [u8],
    pub places: &'p mut [u32],
    pub lengths: &'l mut [u8],
    pub count: usize,
    pub used: usize,
    pub most: Room,
    pub ghost stand: { Stand (beside bytes.now places.now lengths.now) count used most.names most.bytes },
}
