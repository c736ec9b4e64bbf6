// The questions asked of a section's symbols: each is a part of the symbol order, found by a binary search (`symbol_order::part`), and a short pass over it.
// "Its first" and "its next" symbol are the first and the next number of such a part.
#![tactic(auto)]

ghost use Rattle.std.specs.Prelude.{◌≡◌, ◌<◌, length, get_or, None};
ghost use Rattle.lists.specs.Rows.{keep_if};
ghost use Rattle.lists.specs.Sort.{between};
ghost use Rattle.symbol_order.specs.Order.{symbol_of, key_at, symbols_of, Readable, Order};
ghost use Rattle.symbols.specs.Ranges.{sized, sized_unstripped, last_or, highest_of, symbols_between, symbols_through, has_symbols};
ghost use Rattle.symbols.specs.Ranges.{backwards, last_below, last_in, highest_in, found_meaning, highest_meaning, raise};

use fields::number;
use obj::{OBJECT_KIND, Symbol, Table};
use symbol_order::{first_at, key_in, key_of, part};

// 11: a range that ends before it starts, asked of a section that has symbols.
#[derive(Clone, Copy, Debug, PartialEq, Eq)]
pub struct Backwards;

// The numbers of the symbols whose keys are from `low` to before `high`: a part of `order`.
#[tactic(auto, using(symbol_order::proofs::Parts::order_sorted, symbol_order::proofs::Parts::order_readable))]
fn part_of<'a>(table: &Table, order: &'a [u16], low: u64, high: u64) -> &'a [u16]
    requires { Order table.now.bytes.now table.now.places.now order.now }
    ensures { result.now ≡ keep_if (between (key_at table.now.bytes.now table.now.places.now) low high) order.now }
{
    part(order, low, high, &|i| key_in(table, order, i))
}

// Bytes and places go apart here, in `for_section_range`, `for_section_through` and `last_below`: tried as a `&Table`, the proofs don't close, since that each
// byte is below 256 is known of a slice that is lent and not of a struct's (DECISIONS 138).
// Table and order are two parameters of all questions, and `Order` a clause of each: callers have them as two fields of an `Obj`, and a struct with the clause
// as a ghost field would be made, and proved, at each of their calls. Section, start and end stay three numbers: callers have them in a head, a split or a
// gap, and one of the questions is of start..=end.

// The section's symbols.
pub fn for_section<'a>(b: &[u8], places: &[u32], order: &'a [u16], section: u16) -> &'a [u16]
    requires { Order b.now places.now order.now }
    ensures { result.now ≡ symbols_of (symbol_of b.now places.now) (length places.now) section }
{
    let low = key_of(section, 0);
    part_of(&Table { bytes: b, places }, order, low, low + 4294967296)
}

// The section's symbols in start..end.
pub fn for_section_range<'a>(
    b: &[u8],
    places: &[u32],
    order: &'a [u16],
    section: u16,
    start: u32,
    end: u32,
) -> &'a [u16]
    requires { Order b.now places.now order.now }
    ensures { result.now ≡ symbols_between (symbol_of b.now places.now) (length places.now) section start end }
{
    let low = key_of(section, start);
    let high = key_of(section, end);
    part_of(&Table { bytes: b, places }, order, low, high)
}

// The section's symbols in start..=end.
pub fn for_section_through<'a>(
    b: &[u8],
    places: &[u32],
    order: &'a [u16],
    section: u16,
    start: u32,
    end: u32,
) -> &'a [u16]
    requires { Order b.now places.now order.now }
    ensures { result.now ≡ symbols_through (symbol_of b.now places.now) (length places.now) section start end }
{
    let low = key_of(section, start);
    let high = key_of(section, end);
    part_of(&Table { bytes: b, places }, order, low, high + 1)
}

// Whether the section has a symbol at all: "a section that has such records".
pub fn has_symbols(table: &Table, order: &[u16], section: u16) -> bool
    requires { Order table.now.bytes.now table.now.places.now order.now }
    ensures { result ≡ has_symbols (symbol_of table.now.bytes.now table.now.places.now) (length table.now.places.now) section }
{
    let part = for_section(table.bytes, table.places, order, section);
    part.len() != 0
}

// "11 start above end, asked of a section that has such records". Who walks a part of two ends asks this first.
pub fn is_backwards(table: &Table, order: &[u16], section: u16, start: u32, end: u32) -> bool
    requires { Order table.now.bytes.now table.now.places.now order.now }
    ensures { result ≡ backwards (symbol_of table.now.bytes.now table.now.places.now) (length table.now.places.now) section start end }
{
    if end < start {
        return has_symbols(table, order, section);
    }
    false
}

// "of known nonzero size ("sized")"
pub fn is_sized(y: Symbol) -> bool
    ensures { result ≡ sized y }
{
    (y.size_known == 1) & (y.size != 0)
}

// "sized unstripped"; an Object too, where only these are asked for.
pub fn is_sized_unstripped(y: Symbol, objects: bool) -> bool
    ensures { result ≡ sized_unstripped objects y }
{
    (!objects | (y.kind == OBJECT_KIND)) & (is_sized(y) & !y.is_stripped())
}

// Whether the symbol whose number stands at place j is sized and unstripped.
fn is_sized_at(table: &Table, part: &[u16], j: usize, objects: bool) -> bool
    requires { (j < length part.now) × Readable table.now.bytes.now table.now.places.now part.now }
    ensures { result ≡ sized_unstripped objects (symbol_of table.now.bytes.now table.now.places.now (get_or part.now j 0)) }
{
    let i = number(part, j);
    is_sized_unstripped(table.record::<Symbol>(i), objects)
}

// The last sized unstripped symbol of a part, by place, as the law of a search from behind goes. Here and in `last_below` `objects` stays, though all callers ask for every kind: the
// definition has both cases, and so has what is promised.
pub fn last_of(table: &Table, part: &[u16], objects: bool) -> Option<usize>
    requires { Readable table.now.bytes.now table.now.places.now part.now }
    ensures { result ≡ last_or None (keep_if (λ i. sized_unstripped objects (symbol_of table.now.bytes.now table.now.places.now i)) part.now) }
{
    let last = (0..part.len())
        .rev()
        .find(|j| is_sized_at(table, part, *j, objects));
    last.map(|j| number(part, j))
}

// "the last sized unstripped symbol below" an address of a section, or only of its Objects.
// It goes down from the address's place and ends at a symbol of an earlier section, so the section's first place is not searched for. `take_while` and `find` would read each record twice.
#[tactic(auto, using(symbol_order::proofs::Parts::order_readable))]
pub fn last_below(
    b: &[u8],
    places: &[u32],
    order: &[u16],
    objects: bool,
    section: u16,
    address: u32,
) -> Option<usize>
    requires { Order b.now places.now order.now }
    ensures { result ≡ last_below (symbol_of b.now places.now) (length places.now) section objects address }
{
    let symbols = Table { bytes: b, places };
    let end = first_at(
        order,
        key_of(section, address),
        &|i| key_in(&symbols, order, i),
    );
    for j in (0..end).rev() {
        let i = number(order, j);
        let y = symbols.record::<Symbol>(i);
        if y.section < section {
            return None;
        }
        if is_sized_unstripped(y, objects) {
            return Some(i);
        }
    }
    None
}

// "the last such symbol in start..end"
pub fn last_in(
    table: &Table,
    order: &[u16],
    section: u16,
    start: u32,
    end: u32,
) -> Result<Option<usize>, Backwards>
    requires { Order table.now.bytes.now table.now.places.now order.now }
    ensures { found_meaning section start result ≡ last_in (symbol_of table.now.bytes.now table.now.places.now) (length table.now.places.now) section start end }
{
    if is_backwards(table, order, section, start, end) {
        return Err(Backwards);
    }
    let part = for_section_range(table.bytes, table.places, order, section, start, end);
    Ok(last_of(table, part, false))
}

// The symbol's alignment, if it is sized and that is more.
fn raised(most: u32, y: Symbol) -> u32
    ensures { result ≡ raise most y }
{
    if is_sized(y) {
        most.max(y.alignment)
    } else {
        most
    }
}

// The highest alignment of a part's sized symbols, stripped ones included.
fn highest_of(table: &Table, part: &[u16]) -> u32
    requires { Readable table.now.bytes.now table.now.places.now part.now }
    ensures { result ≡ highest_of (symbol_of table.now.bytes.now table.now.places.now) (keep_if (λ i. sized (symbol_of table.now.bytes.now table.now.places.now i)) part.now) }
{
    let mut most: u32 = 0;
    for k in part {
        most = raised(most, table.record::<Symbol>(usize::from(*k)));
    }
    most
}

// "the highest alignment of sized symbols in start..end, stripped ones included". Inlined, since most ranges hold no symbol: a run of 1,024 splits without an
// alignment of their own takes 2 % fewer instructions.
#[inline(always)]
pub fn highest_in(
    table: &Table,
    order: &[u16],
    section: u16,
    start: u32,
    end: u32,
) -> Result<u32, Backwards>
    requires { Order table.now.bytes.now table.now.places.now order.now }
    ensures { highest_meaning section start result ≡ highest_in (symbol_of table.now.bytes.now table.now.places.now) (length table.now.places.now) section start end }
{
    if is_backwards(table, order, section, start, end) {
        return Err(Backwards);
    }
    let part = for_section_range(table.bytes, table.places, order, section, start, end);
    Ok(highest_of(table, part))
}
