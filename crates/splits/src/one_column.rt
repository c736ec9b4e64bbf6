// The split table, of which one column is written: who lends it needs the other three only to read. Three structs for three columns, since a field is `&` or `&mut`. One struct with a
// type for each column takes a trait that says which numbers a slice has, and then every definition over it names the four types and that trait's words for each of them.
ghost use Rattle.std.specs.Prelude.{◌≡◌, length};
ghost use Rattle.splits.specs.Columns.{columns, Long};

// The split table, of which the ends alone are written.
#[derive(Drop)]
pub struct SplitEnds<'s, 'e, 'u, 'r> {
    pub starts: &'s [u32],
    pub ends: &'e mut [u32],
    pub units: &'u [u16],
    pub rest: &'r [u64],
    pub count: usize,
    pub ghost long: { Long (columns starts.now ends.now units.now rest.now) count },
}

// The split table, of which the units alone are written.
#[derive(Drop)]
pub struct SplitUnits<'s, 'e, 'u, 'r> {
    pub starts: &'s [u32],
    pub ends: &'e [u32],
    pub units: &'u mut [u16],
    pub rest: &'r [u64],
    pub count: usize,
    pub ghost long: { Long (columns starts.now ends.now units.now rest.now) count },
}

// The split table, of which the rest alone is written.
#[derive(Drop)]
pub struct SplitRest<'s, 'e, 'u, 'r> {
    pub starts: &'s [u32],
    pub ends: &'e [u32],
    pub units: &'u [u16],
    pub rest: &'r mut [u64],
    pub count: usize,
    pub ghost long: { Long (columns starts.now ends.now units.now rest.now) count },
}
