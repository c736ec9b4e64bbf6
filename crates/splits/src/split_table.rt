// The split table's columns, to read and to write. A struct with a ghost field imports all that its file does, so these stand in a file of their own.
ghost use Rattle.std.specs.Prelude.{◌≡◌, ℕ, ◌≤◌, length};
ghost use Rattle.splits.specs.Columns.{columns, Long};

// The columns of the split table; its rows are the first `count` of them. A count, and not columns cut to the rows: those would have four lengths, with a clause that each is
// the table's, where one count is enough.
#[derive(Clone, Copy)]
pub struct SplitColumns<'s, 'e, 'u, 'r> {
    pub starts: &'s [u32],
    pub ends: &'e [u32],
    pub units: &'u [u16],
    pub rest: &'r [u64],
    pub count: usize,
    pub ghost long: { Long (columns starts.now ends.now units.now rest.now) count },
}

// The split table: columns to write, with room for `room` rows, of which the first `count` are the table's. Who owns the columns writes them into the literal, as
// `starts: &mut [0u32; 1024]`: a method of a struct that owns them can't return this one (the prover doesn't cover it), and a closure would carry its caller's contract.
#[derive(Drop)]
pub struct SplitTable<'s, 'e, 'u, 'r> {
    pub starts: &'s mut [u32],
    pub ends: &'e mut [u32],
    pub units: &'u mut [u16],
    pub rest: &'r mut [u64],
    pub count: usize,
    pub room: usize,
    pub ghost long: { Long (columns starts.now ends.now units.now rest.now) room },
    pub ghost fits: { count ≤ room },
}
