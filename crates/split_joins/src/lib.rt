// A join over a split's range and the push of the split, in one move, where the table is such that this is the same (document 01, Merge: "both become one"). Proved
// equal to the two edits one after the other (specs/Joins.antt).
#![tactic(auto)]

ghost use Rattle.std.specs.Prelude.{◌≡◌, true, false, eqb, ℕ, get_or};
ghost use Rattle.lists.specs.Rows.{some};
ghost use Rattle.splits.specs.Columns.{Good};
ghost use Rattle.splits.specs.Table.{columns_of, columns_in, SameLent, Unchanged};
ghost use Rattle.split_joins.specs.Joins.{Apart, Between, TakesPlace, AtOnce};

use obj::Split;
use split_edits::{first_from, lies_after, next_outside, shift_rows_down};
use splits::{SectionRange, SplitTable, next_of_unit, next_within};

mod row_run;

use row_run::RowRun;

// Whether one of the units is this one. No early exit, so that the compiler compares eight at a time.
fn has_unit(units: &[u16], unit: u16) -> bool
    ensures { result ≡ some (λ (u : ℕ). eqb u unit) units.now }
{
    let mut any = false;
    for u in units {
        any |= *u == unit;
    }
    any
}

// Whether the rows have no unit but `unit` in common with those around them: then a renaming of theirs leaves those as they are.
fn keeps_units(rows: &RowRun, unit: u16) -> bool
    ensures { result ≡ true → Apart (λ (k : ℕ). get_or rows.now.splits.units.now k 0) rows.now.splits.count rows.now.first rows.now.stop unit }
{
    let units = rows.splits.units;
    let front = &units[..rows.first];
    let these = &units[rows.first..rows.stop];
    let back = &units[rows.stop..rows.splits.count];
    for u in these {
        if *u != unit {
            let before = has_unit(front, *u);
            let behind = has_unit(back, *u);
            if before | behind {
                return false;
            }
        }
    }
    true
}

// Whether s lies between the rows before these and those behind them.
fn lies_between(rows: &RowRun, s: Split) -> bool
    ensures { result ≡ true → Between s (columns_of rows.now.splits) rows.now.splits.count rows.now.first rows.now.stop }
{
    let splits = &rows.splits;
    let from = first_from(&splits.first(rows.first), s);
    if from < rows.first {
        return false;
    }
    let stop = rows.stop;
    if stop == splits.count {
        return true;
    }
    lies_after(s, splits.starts[stop], splits.ends[stop], splits.rest[stop])
}

// Whether s may take the place of the rows, which are in its range: no other row is in it or of its unit in the section, or takes
// another name by the join, and s lies where they do.
fn takes_place(rows: &RowRun, s: Split) -> bool
    ensures { result ≡ true → TakesPlace s (columns_of rows.now.splits) rows.now.splits.count rows.now.first rows.now.stop }
{
    if (rows.stop <= rows.first) | (s.end <= s.start) {
        return false;
    }
    let splits = &rows.splits;
    let other = next_within(splits, SectionRange::of(s), rows.stop);
    let own = next_of_unit(&splits.first(rows.first), s.section, s.unit, 0);
    let later = next_of_unit(splits, s.section, s.unit, rows.stop);
    if other.is_some() | (own.is_some() | later.is_some()) {
        return false;
    }
    if !keeps_units(rows, s.unit) {
        return false;
    }
    lies_between(rows, s)
}

// A join over the range of s and a push of s, where s can take the place of the rows in it: the rows behind move once. Whether it could; else nothing changed.
pub fn join_and_push(table: &mut SplitTable, s: Split) -> bool
    requires { Good s.alignment }
    ensures made { result ≡ true → AtOnce s (columns_in table.old) (columns_in table.new) table.old.count table.new.count }
    ensures none { result ≡ false → Unchanged table.old table.new }
    ensures lent { SameLent table.old table.new }
{
    let n = table.count;
    let splits = table.columns();
    let range = SectionRange::of(s);
    let Some(first) = next_within(&splits, range, 0) else {
        return false;
    };
    let stop = next_outside(&splits, range, first);
    let rows = RowRun {
        splits,
        first,
        stop,
    };
    if !takes_place(&rows, s) {
        return false;
    }
    shift_rows_down(table, first + 1, stop, n - stop);
    table.put_row(first, s);
    table.count = n - stop + (first + 1);
    true
}
