// Mending of a split table (`mend_splits`): ends that are 0, below their start or above the next start are replaced, with a line for each.
// A row's new end is decided in a function over columns to read, then set; the lines go into a lent slice.
#![tactic(auto)]

ghost use Rattle.std.specs.Prelude.{◌≡◌, ◌+◌, ◌-◌, ◌≤◌, ◌<◌, map, length, take};
ghost use Rattle.lists.specs.Rows.{tabulate};
ghost use Rattle.obj.specs.Answers.{meaning};
ghost use Rattle.obj.specs.Records.{section_at};
ghost use Rattle.splits.specs.Columns.{row_at};
ghost use Rattle.splits.specs.Table.{columns_of, rows_of, ends_columns, ends_rows, OnlyEnds};
ghost use Rattle.lines.specs.Lines.{Written};
ghost use Rattle.mend.specs.Mend.{section_ends_of, next_of, wrong_end, limit_of, replacement, mend_line, mend_check};
ghost use Rattle.mend.specs.Steps.{Joins, Turned, Fills, Mends, LowHeads};

use lines::{NEWLINE, SPACE, Text};
use names::put_bytes;
use obj::{Refusal, Section, Split, Table, refuse};
use splits::{SplitColumns, SplitEnds, row, section_of};

// ---- one row

// "an end that is 0, below its start or above the next start"
fn wrong_end(start: u32, end: u32, next: Option<u32>) -> bool
    ensures { result ≡ wrong_end start end next }
{
    (end == 0) | (end < start) | next.is_some_and(|at| at < end)
}

// "by the next start, or by the section's end for the last split"; 0 where there is no such section, which `check_ends` refuses as it does a section's end of 0.
#[tactic(auto, unfolding(crate::specs::Mend::limit_of))]
fn limit_of(section_ends: &[u32], section: u16, next: Option<u32>) -> u32
    ensures { result ≡ limit_of section_ends.now section next }
{
    next.or(section_ends.get(usize::from(section)).copied())
        .unwrap_or(0)
}

// The start of the split after row i, if that is of the section too.
fn next_of(splits: &SplitColumns, i: usize) -> Option<u32>
    requires { i < splits.now.count }
    ensures { result
        ≡ next_of (row_at (columns_of splits.now) i)
        (tabulate (row_at (columns_of splits.now)) (i + 1) (splits.now.count - (i + 1))) }
{
    let k = i + 1;
    if splits.count <= k {
        return None;
    }
    if section_of(splits.rest[k]) != section_of(splits.rest[i]) {
        return None;
    }
    Some(splits.starts[k])
}

// The end that row i gets, if its own is replaced.
fn decide(splits: &SplitColumns, section_ends: &[u32], i: usize) -> Option<u32>
    requires { i < splits.now.count }
    ensures { result
        ≡ replacement section_ends.now (row_at (columns_of splits.now) i)
        (tabulate (row_at (columns_of splits.now)) (i + 1) (splits.now.count - (i + 1))) }
{
    let split = row(splits, i);
    let next = next_of(splits, i);
    wrong_end(split.start, split.end, next).then(|| limit_of(section_ends, split.section, next))
}

// "86, a new end would be 0 or below its start", of the rows in table order.
pub fn check_ends(splits: &SplitColumns, section_ends: &[u32]) -> Result<(), Refusal>
    ensures { meaning result ≡ mend_check section_ends.now (rows_of splits.now) }
{
    // by number: what row i gets depends on the row after it too
    for i in 0..splits.count {
        let end = decide(splits, section_ends, i).unwrap_or(splits.ends[i]);
        if (end == 0) | (end < splits.starts[i]) {
            return refuse(86, 0, 0);
        }
    }
    Ok(())
}

// ---- lines

// "section number, start, old end and new end"
#[tactic(auto, using(lines::proofs::Puts::fields))]
fn write_line(out: &mut [u8], s: Split, end: u32) -> usize
    requires { 208 ≤ length out.old }
    ensures { Written out.old out.new (mend_line s.section s.start s.end end) result }
{
    let mut text = Text { bytes: out, at: 0 };
    text.put_decimal(s.section as u64, SPACE);
    text.put_hex8(s.start, SPACE);
    text.put_hex8(s.end, SPACE);
    text.put_hex8(end, NEWLINE);
    text.at
}

// The line of a split that gets another end, behind the lines so far, if it fits: where they end then. `lines` and `at` stay two: with `lines::Text`, which has both, whether the
// line fitted would be a flag, while where they end, or none, is handed on by `?`.
fn put_line(lines: &mut [u8], at: usize, s: Split, end: u32) -> Option<usize>
    requires { at ≤ length lines.old }
    ensures { Joins lines.old lines.new at (mend_line s.section s.start s.end end) result }
{
    let mut buffer = [0u8; 208];
    let size = write_line(&mut buffer, s, end);
    if lines.len() - at < size {
        return None;
    }
    put_bytes(lines, at, &buffer[..size]);
    Some(at + size)
}

// ---- the table

// Row i gets its end, and its line is put behind the lines so far, if it fits: where they end then.
fn mend_row(
    table: &mut SplitEnds,
    section_ends: &[u32],
    i: usize,
    lines: &mut [u8],
    at: usize,
) -> Option<usize>
    requires { (i < table.old.count) × (at ≤ length lines.old) }
    ensures turned { Turned section_ends.now (row_at (ends_columns table.old) i)
        (tabulate (row_at (ends_columns table.old)) (i + 1) (table.old.count - (i + 1)))
        i table.old.ends.now table.new.ends.now lines.old lines.new at result }
    ensures others { OnlyEnds table.old table.new }
{
    let splits = table.columns();
    let s = row(&splits, i);
    match decide(&splits, section_ends, i) {
        Some(end) => {
            table.ends[i] = end;
            put_line(lines, at, s, end)
        }
        None => Some(at),
    }
}

// The rows get their ends, and the lines stand at the front of the lent bytes, if they fit: how many bytes of lines there are.
pub fn mend_rows(table: &mut SplitEnds, section_ends: &[u32], lines: &mut [u8]) -> Option<usize>
    ensures filled { Fills section_ends.now (ends_rows table.old) (ends_rows table.new) lines.old lines.new result }
    ensures others { OnlyEnds table.old table.new }
{
    let mut at: usize = 0;
    // by number: a turn reads rows i and i + 1, all columns of them, and writes the end of row i
    for i in 0..table.count {
        at = mend_row(table, section_ends, i, lines, at)?;
    }
    Some(at)
}

// The stage: 86, then the ends and their lines, then 80. It answers how many bytes of lines there are.
pub fn mend_table(
    table: &mut SplitEnds,
    section_ends: &[u32],
    lines: &mut [u8],
) -> Result<usize, Refusal>
    ensures mended { Mends section_ends.now (ends_rows table.old) (ends_rows table.new) lines.old lines.new result }
    ensures others { OnlyEnds table.old table.new }
{
    check_ends(&table.columns(), section_ends)?;
    mend_rows(table, section_ends, lines).ok_or(Refusal::new(80, 0, 0))
}

// ---- the sections

// Where each section ends, at the front of a lent column.
pub fn fill_section_ends(heads: &Table, section_ends: &mut [u32])
    requires { LowHeads heads.now.bytes.now heads.now.places.now × (length heads.now.places.now ≤ length section_ends.old) }
    ensures { take (length heads.now.places.now) section_ends.new
        ≡ section_ends_of (map (section_at heads.now.bytes.now) heads.now.places.now) }
{
    let n = heads.places.len();
    for (k, end) in section_ends[..n].iter_mut().enumerate() {
        let head = heads.record::<Section>(k);
        *end = head.address + head.size;
    }
}
