// The names that the sections and symbols of a file are asked over.
ghost use Rattle.std.specs.Prelude.{◌≡◌};
ghost use Rattle.name_table.specs.Stored.{stage_lengths};

use number_names::KnownNames;

// Names that are known, and how many bytes each has.
#[derive(Clone, Copy)]
pub struct MeasuredNames<'e, 'b, 'h, 'c, 'l> {
    pub known: KnownNames<'e, 'b, 'h, 'c>,
    pub lengths: &'l [u8],
    pub ghost measured: { lengths.now ≡ stage_lengths known.ends.now known.bytes.now },
}
