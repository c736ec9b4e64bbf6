// The gaps' columns, to read and to write. A struct with a ghost field imports all that its file does, so these stand in a file of their own.
ghost use Rattle.std.specs.Prelude.{◌≤◌};
ghost use Rattle.gap_columns.specs.Columns.{Long};

// The columns of gaps to read; the gaps are their first `count` rows. As for splits::SplitColumns, one count and not columns cut to it, whose lengths would each have a clause.
#[derive(Clone, Copy)]
pub struct GapColumns<'k, 'e> {
    pub keys: &'k [u64],
    pub ends: &'e [u32],
    pub count: usize,
    pub ghost long: { Long keys.now ends.now count },
}

// The gaps that were found: columns to write, with room for `room` gaps, of which `count` are there.
#[derive(Drop)]
pub struct GapTable<'k, 'e> {
    pub keys: &'k mut [u64],
    pub ends: &'e mut [u32],
    pub count: usize,
    pub room: usize,
    pub ghost long: { Long keys.now ends.now room },
    pub ghost fits: { count ≤ room },
}
