// The search for the gaps of a split table (`create_gap_splits` of util/split.rs, its first half): all gaps of all sections are found in the table as it
// is, and kept in a lent table in the order in which they enter.
#![tactic(auto)]

ghost use Rattle.std.specs.Prelude.{ℕ, Some, ◌≡◌, [], true, false, cond, not, ◌&&◌, ◌+◌, ◌*◌, ◌%◌, ◌≤◌, ◌<◌, length, eqb, ltb, IfSome};
ghost use Rattle.lists.specs.Rows.{keep_if};
ghost use Rattle.align.specs.Align.{good_align, bad_align};
ghost use Rattle.obj.specs.Answers.{meaning};
ghost use Rattle.symbol_order.specs.Order.{symbol_of, Readable, Order};
ghost use Rattle.symbols.specs.Sound.{Sound};
ghost use Rattle.sections.specs.Image.{image_in, TablesIn};
ghost use Rattle.sections.specs.Sections.{sections_of, head_in, KeptIn};
ghost use Rattle.splits.specs.Table.{columns_of, rows_of};
ghost use Rattle.splits.specs.Questions.{start_of};
ghost use Rattle.gap_columns.specs.Table.{found_in, SameLent};
ghost use Rattle.gaps.specs.Gaps.{gap_end, gaps_to, gaps_before, gaps_from, below, section_gaps, into, found_gaps};
ghost use Rattle.gaps.specs.Search.{symbol_in, count_in, SameSearch};
ghost use Rattle.gaps.specs.Found.{alignment_of_next, next_meaning, searched, Clean, Markable, Lent, Space, SectionSpace, Stopped, Unmarked, end_in};

use align::align_up;
use fields::number;
use gap_columns::{GapTable, place_gap};
use obj::{Refusal, Section, Split, Symbol, Table, refuse};
use sections::{Obj, alignment_of, default_of};
use splits::{SectionRange, SplitColumns, next_row, row, start_of};
use symbol_order::key_of;
use symbols::{Backwards, for_section_range};

mod gap_search;

use gap_search::{GapSearch, GapSection};

// ---- where a gap ends

// "whose alignment the *current address* misses"; 0 is none.
fn misses(current: u32, alignment: u32) -> bool
    ensures { result ≡ (not (eqb alignment 0) && not (eqb (current % alignment) 0)) }
{
    alignment != 0 && current % alignment != 0
}

// `stop_of`, `end_at` and `clear_marks` take the table, a part and the marks apart: a struct would be made twice, for the part and for its first j numbers.

// How many symbols of the part a gap from `current` on goes past: "to the first unstripped symbol whose name already occurred in the gap, or whose
// alignment the *current address* misses". The names that occurred are left marked. It is a count and no place, so no Option: the marks of so many go again.
fn stop_of(table: &Table, part: &[u16], current: u32, marks: &mut [u8]) -> usize
    requires { Readable table.now.bytes.now table.now.places.now part.now × Markable (symbol_of table.now.bytes.now table.now.places.now) (length table.now.places.now) marks.old × Clean marks.old }
    ensures { Stopped (symbol_of table.now.bytes.now table.now.places.now) current part.now marks.new result }
{
    for (j, n) in part.iter().enumerate() {
        let y = table.record::<Symbol>(usize::from(*n));
        if y.is_stripped() {
            continue;
        }
        let k = y.name as usize;
        if (marks[k] != 0) | misses(current, y.alignment) {
            return j;
        }
        marks[k] = 1;
    }
    part.len()
}

// The marks of the part's names go.
fn clear_marks(table: &Table, part: &[u16], marks: &mut [u8])
    requires { Readable table.now.bytes.now table.now.places.now part.now × Markable (symbol_of table.now.bytes.now table.now.places.now) (length table.now.places.now) marks.old }
    ensures { Unmarked (symbol_of table.now.bytes.now table.now.places.now) part.now marks.old marks.new }
{
    for n in part {
        let y = table.record::<Symbol>(usize::from(*n));
        let k = y.name as usize;
        marks[k] = 0;
    }
}

// Where the gap ends that goes past j symbols of the part: at symbol j, or at the next start. "41 repeated name not at a multiple of 4", "42 gap would end where
// it starts".
fn end_at(
    table: &Table,
    part: &[u16],
    j: usize,
    marks: &[u8],
    section: u16,
    current: u32,
    next: u32,
) -> Result<u32, Refusal>
    requires { Readable table.now.bytes.now table.now.places.now part.now × Markable (symbol_of table.now.bytes.now table.now.places.now) (length table.now.places.now) marks.now × Stopped (symbol_of table.now.bytes.now table.now.places.now) current part.now marks.now j × (current < next) }
    ensures { meaning result ≡ end_in (symbol_of table.now.bytes.now table.now.places.now) section current next part.now }
{
    if part.len() <= j {
        return Ok(next);
    }
    let y = table.record::<Symbol>(number(part, j));
    let k = y.name as usize;
    if (marks[k] != 0) & (y.address % 4 != 0) {
        return refuse(41, section, current);
    }
    if y.address <= current {
        return refuse(42, section, current);
    }
    Ok(y.address)
}

// Where a gap from `current` on ends, before or at the next start.
fn gap_end(search: &mut GapSearch, current: u32, next: u32) -> Result<u32, Refusal>
    requires { current < next }
    ensures end { meaning result
        ≡ gap_end (symbol_in search.old.here) (count_in search.old.here) search.old.here.section current next }
    ensures same { SameSearch search.old search.new }
{
    let here = search.here;
    let part = for_section_range(
        here.symbols.bytes,
        here.symbols.places,
        here.order,
        here.section,
        current,
        next,
    );
    let marks = &mut *search.marks;
    let j = stop_of(&here.symbols, part, current, marks);
    let end = end_at(&here.symbols, part, j, marks, here.section, current, next);
    clear_marks(&here.symbols, &part[..j], marks);
    end
}

// ---- the gaps of a section

// The gaps from `current` up to the next start.
fn gaps_to(
    search: &mut GapSearch,
    found: &mut GapTable,
    current: u32,
    next: u32,
    alignment: u32,
) -> Result<(), Refusal>
    requires { Space (symbol_in search.old.here) (count_in search.old.here) search.old.here.section current next [] found.old
        × (current ≤ next) × (next ≤ 4026531840) × (good_align alignment ≡ true) }
    ensures gaps { searched found.new result
        ≡ into (found_in found.old) (gaps_to (symbol_in search.old.here) (count_in search.old.here) search.old.here.section current next alignment) }
    ensures same { SameSearch search.old search.new }
    ensures lent { SameLent found.old found.new }
{
    let section = search.here.section;
    let mut at = current;
    // no count: a turn begins where the gap before it ended
    loop {
        if next <= align_up(at, alignment) {
            return Ok(());
        }
        let end = gap_end(search, at, next)?;
        place_gap(found, key_of(section, at), end);
        at = end;
    }
}

// "the next split's alignment"; 11 where a range is asked for it.
fn next_alignment(here: &GapSection, s: Split) -> Result<u32, Backwards>
    ensures { next_meaning here.now.section s.start result ≡ alignment_of_next (symbol_in here.now) (count_in here.now) here.now.section here.now.least s }
{
    let chosen = alignment_of(
        &here.symbols,
        here.order,
        here.section,
        here.least,
        s.alignment,
        s.start,
        s.end,
    )?;
    Ok(chosen.value())
}

// The gaps before the split s: 11 where its alignment is asked, then "40 next start below current".
fn gaps_before(
    search: &mut GapSearch,
    found: &mut GapTable,
    current: u32,
    s: Split,
) -> Result<(), Refusal>
    requires { Space (symbol_in search.old.here) (count_in search.old.here) search.old.here.section current s.start [] found.old
        × (s.start ≤ 4026531840) × (bad_align s.alignment ≡ false) }
    ensures gaps { searched found.new result
        ≡ into (found_in found.old)
        (gaps_before (symbol_in search.old.here) (count_in search.old.here) search.old.here.section search.old.here.least current s) }
    ensures same { SameSearch search.old search.new }
    ensures lent { SameLent found.old found.new }
{
    let here = search.here;
    let alignment = next_alignment(&here, s).map_err(|_| Refusal::new(11, here.section, s.start))?;
    if s.start < current {
        return refuse(40, here.section, current);
    }
    gaps_to(search, found, current, s.start, alignment)
}

// The address after a split: "An open split runs to the next start or the splitting end".
fn end_after(splits: &SplitColumns, next: Option<usize>, end: u32, own: u32) -> u32
    requires { IfSome next (λ i. i < splits.now.count) }
    ensures { result ≡ cond (eqb own 0) (start_of splits.now.starts.now end next) own }
{
    if own != 0 {
        return own;
    }
    start_of(splits, next, end)
}

// The gaps of a section from its start up to its splitting end, over the splits below it.
fn section_gaps(
    search: &mut GapSearch,
    found: &mut GapTable,
    splits: &SplitColumns,
    start: u32,
    end: u32,
) -> Result<(), Refusal>
    requires { Space (symbol_in search.old.here) (count_in search.old.here) search.old.here.section start end (rows_of splits.now) found.old
        × (end ≤ 4026531840) }
    ensures gaps { searched found.new result
        ≡ into (found_in found.old)
        (gaps_from (symbol_in search.old.here) (count_in search.old.here) search.old.here.section search.old.here.least end start
        (keep_if (below search.old.here.section end) (rows_of splits.now))) }
    ensures same { SameSearch search.old search.new }
    ensures lent { SameLent found.old found.new }
{
    let least = search.here.least;
    // "also those below the section's start" (DECISIONS 45)
    let below = SectionRange {
        section: search.here.section,
        from: 0,
        to: end,
    };
    let mut current = start;
    let mut next = next_row(splits, below, 0);
    // no count: the walk goes from a split of the section to the next
    while let Some(i) = next {
        if end <= current {
            return Ok(());
        }
        let s = row(splits, i);
        gaps_before(search, found, current, s)?;
        next = next_row(splits, below, i + 1);
        current = end_after(splits, next, end, s.end);
    }
    if end <= current {
        return Ok(());
    }
    gaps_to(search, found, current, end, least)
}

// The gaps of section k: 10 where its splitting end is asked.
fn gaps_of(
    obj: &Obj,
    image: &Table,
    splits: &SplitColumns,
    marks: &mut [u8],
    found: &mut GapTable,
    k: usize,
) -> Result<(), Refusal>
    requires { TablesIn obj.now
        × KeptIn obj.now image.now
        × Lent obj.now.symbols.bytes.now obj.now.symbols.places.now obj.now.order.now marks.old
        × Sound (symbol_of obj.now.symbols.bytes.now obj.now.symbols.places.now) (length obj.now.symbols.places.now)
        × (k < length obj.now.heads.places.now)
        × SectionSpace (symbol_of obj.now.symbols.bytes.now obj.now.symbols.places.now) (length obj.now.symbols.places.now) k (head_in obj.now k).address (rows_of splits.now) found.old }
    ensures gaps { searched found.new result
        ≡ into (found_in found.old)
        (section_gaps
        (image_in obj.now)
        (sections_of obj.now.heads.bytes.now obj.now.heads.places.now image.now.bytes.now image.now.places.now)
        k (rows_of splits.now)) }
    ensures marks { Clean marks.new }
    ensures lent { SameLent found.old found.new }
{
    let section = k as u16;
    let start = obj.heads.record::<Section>(k).address;
    let end = sections::end_of(obj, image, k).map_err(|_| Refusal::new(10, section, start))?;
    let least = default_of(&obj.names, &obj.heads, k);
    let here = GapSection {
        symbols: obj.symbols,
        order: obj.order,
        section,
        least,
    };
    let mut search = GapSearch { here, marks };
    section_gaps(&mut search, found, splits, start, end)
}

// All gaps of all sections, in the order in which they enter, or the first refusal: 10, 11, 40, 41, 42.
// `obj` and `image` stay two here and in the stages above: most questions that take an `Obj` ask no image, and the callers keep both in structs of their own (`Loaded`,
// `PassedTables`), so that a struct of the two would be made for this one call.
pub fn find_gaps(
    obj: &Obj,
    image: &Table,
    splits: &SplitColumns,
    marks: &mut [u8],
    found: &mut GapTable,
) -> Result<(), Refusal>
    requires { TablesIn obj.now
        × KeptIn obj.now image.now
        × Sound (symbol_of obj.now.symbols.bytes.now obj.now.symbols.places.now) (length obj.now.symbols.places.now)
        × Clean marks.old × (length obj.now.names.places.now ≤ length marks.old)
        × (length obj.now.heads.places.now + 2 * splits.now.count + length obj.now.symbols.places.now ≤ found.old.room) }
    ensures gaps { searched found.new result
        ≡ found_gaps
        (image_in obj.now)
        (sections_of obj.now.heads.bytes.now obj.now.heads.places.now image.now.bytes.now image.now.places.now)
        (rows_of splits.now) }
    ensures marks { Clean marks.new }
    ensures lent { SameLent found.old found.new }
{
    found.count = 0;
    for k in 0..obj.heads.places.len() {
        gaps_of(obj, image, splits, marks, found, k)?;
    }
    Ok(())
}
