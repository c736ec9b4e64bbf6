// Rows side by side. A struct with a ghost field imports all that its file does, so it stands in a file of its own.
ghost use Rattle.std.specs.Prelude.{◌≤◌};

use splits::SplitColumns;

// The rows of a table from `first` up to `stop`.
#[derive(Clone, Copy)]
pub struct RowRun<'s, 'e, 'u, 'r> {
    pub splits: SplitColumns<'s, 'e, 'u, 'r>,
    pub first: usize,
    pub stop: usize,
    pub ghost forward: { first ≤ stop },
    pub ghost within: { stop ≤ splits.count },
}
