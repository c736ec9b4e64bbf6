// From one row in a range to the next. Row by row, and not by blocks as `next_within` goes: a section's splits stand together, so the next one is mostly the next row.
ghost use Rattle.std.specs.Prelude.{◌≡◌, ◌<◌, IfSome};
ghost use Rattle.splits.specs.Table.{columns_of};
ghost use Rattle.splits.specs.Questions.{in_range, FirstPlace, start_of};

use crate::{SectionRange, SplitColumns, is_within};

// The first row from `at` on in the range.
#[inline(always)]
pub fn next_row(splits: &SplitColumns, range: SectionRange, at: usize) -> Option<usize>
    ensures { FirstPlace (in_range range) (columns_of splits.now) at splits.now.count result }
{
    (at..splits.count).find(|i| is_within(range, splits.starts[*i], splits.rest[*i]))
}

// Where a row starts, or `end` where there is none.
#[inline(always)]
pub fn start_of(splits: &SplitColumns, row: Option<usize>, end: u32) -> u32
    requires { IfSome row (λ i. i < splits.now.count) }
    ensures { result ≡ start_of splits.now.starts.now end row }
{
    row.map_or(end, |i| splits.starts[i])
}
