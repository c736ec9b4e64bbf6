// Questions on a section: where it may be split at last, how a split in it is aligned, and its bytes.
#![tactic(auto)]

ghost use Rattle.std.specs.Prelude.{◌≡◌, reverse, ◌-◌, ◌<◌, ◌≤◌, length, drop};
ghost use Rattle.names.specs.Names.{name_at};
ghost use Rattle.names.specs.Listed.{NamedIn};
ghost use Rattle.obj.specs.Records.{Held};
ghost use Rattle.symbol_order.specs.Order.{symbol_of, Order};
ghost use Rattle.sections.specs.Image.{image_of, Part, Whole, Lies, image_in, TablesIn};
ghost use Rattle.sections.specs.Bytes.{bytes_of, all_zero};
ghost use Rattle.sections.specs.Ends.{object_below, lowered, less_four, splitting_end, end_meaning, Four};
ghost use Rattle.symbols.specs.Ranges.{Within};
ghost use Rattle.sections.specs.Sections.{head_of, Heads, head_in, KeptIn};
ghost use Rattle.sections.specs.Alignment.{default_alignment, larger, alignment_of, alignment_from, alignment_meaning, chosen};

use fields::number;
use names::{Names, is_four_aligned, is_linker_generated_object, is_pointer_list, name_at};
use obj::{CODE, Section, Split, Symbol, Table};
use symbols::{Backwards, for_section, highest_in, is_sized_unstripped};

// What the stages ask a guest: its symbols with their order by address, its names and the heads of its sections. A lifetime for each slice, as they have
// different owners.
#[derive(Clone, Copy)]
pub struct Obj<'s, 't, 'o, 'b, 'p, 'l, 'h, 'i> {
    pub symbols: Table<'s, 't>,
    pub order: &'o [u16],
    pub names: Names<'b, 'p, 'l>,
    pub heads: Table<'h, 'i>,
}

// 10: a `.ctors` or `.dtors` of 1 to 3 bytes.
#[derive(Clone, Copy, Debug, PartialEq, Eq)]
pub struct Short;

// A split's alignment with its reason.
#[derive(Clone, Copy, Debug, PartialEq, Eq)]
pub enum Alignment {
    Given(u32),
    FromSymbol(u32),
    Default(u32),
}

impl Alignment {
    // The alignment, for whatever reason.
    pub fn value(self) -> u32
        ensures { result ≡ (chosen self).value }
    {
        match self {
            Alignment::Given(value) => value,
            Alignment::FromSymbol(value) => value,
            Alignment::Default(value) => value,
        }
    }
}

// The bytes of section n: a part of the image, none for kind 3.
pub fn section_bytes<'a, 'p>(image: &Table<'a, 'p>, n: usize, head: Section) -> &'a [u8]
    requires { Lies image.now.bytes.now image.now.places.now n head }
    ensures { result.now ≡ bytes_of image.now.bytes.now image.now.places.now n head }
{
    if head.is_bss() {
        return &image.bytes[..0];
    }
    let from = image.places[n] as usize;
    let to = from + (head.size as usize);
    &image.bytes[from..to]
}

// Whether all of these bytes are zero.
#[tactic(auto, using(std::proofs::lemmas::Bool::Decides::same_from_decides, crate::proofs::Zero::all_zero_decides))]
pub fn is_zero(bytes: &[u8]) -> bool
    ensures { result ≡ all_zero bytes.now }
{
    bytes.iter().all(|x| *x == 0)
}

// "unstripped Object symbol below it of known nonzero size"
fn is_object_below(y: Symbol, end: u32) -> bool
    ensures { result ≡ object_below end y }
{
    (y.address < end) & is_sized_unstripped(y, true)
}

// "while the last .. has one of the five linker object names, that symbol's address"; over a section's symbols, the last first. By place: of
// `iter().rev()` only the list of what it has yielded is known, where the definition's law goes by what is left, the first j numbers of the part.
fn lower(table: &Table, part: &[u16], names: &Names, end: u32) -> u32
    requires { Part table.now.bytes.now table.now.places.now part.now names.now.bytes.now names.now.places.now names.now.lengths.now }
    ensures { Within (lowered (image_of table.now.bytes.now table.now.places.now names.now.bytes.now names.now.places.now names.now.lengths.now) end (reverse part.now)) end result }
{
    let mut low = end;
    for j in (0..part.len()).rev() {
        let y = table.record::<Symbol>(number(part, j));
        if is_object_below(y, low) {
            let k = usize::from(y.name);
            if is_linker_generated_object(name_at(names, k)) {
                low = y.address;
            } else {
                return low;
            }
        }
    }
    low
}

// "less 4 if `.ctors` or `.dtors` ends in four zero bytes". `list` says whether the name is one of these, since the refusal before it asks that too.
fn less_four(bytes: &[u8], list: bool, end: u32) -> u32
    requires { Four list (length bytes.now) end }
    ensures { result ≡ less_four list bytes.now end }
{
    if list && is_zero(&bytes[bytes.len() - 4..]) {
        end - 4
    } else {
        end
    }
}

// The splitting end of a section that has this head and these bytes.
pub fn end_for_section(obj: &Obj, section: u16, head: Section, bytes: &[u8]) -> Result<u32, Short>
    requires { TablesIn obj.now × Whole head bytes.now obj.now.names.places.now }
    ensures { end_meaning section head.address result ≡ splitting_end (image_in obj.now) section head bytes.now }
{
    let end = head.address + head.size;
    if head.is_bss() | (head.size == 0) {
        return Ok(end);
    }
    let k = usize::from(head.name);
    let list = is_pointer_list(name_at(&obj.names, k));
    if list & (head.size < 4) {
        return Err(Short);
    }
    let last = less_four(bytes, list, end);
    let symbols = &obj.symbols;
    let part = for_section(symbols.bytes, symbols.places, obj.order, section);
    Ok(lower(symbols, part, &obj.names, last))
}

// The splitting end of section n, over the bytes that it has in the image.
pub fn end_of(obj: &Obj, image: &Table, n: usize) -> Result<u32, Short>
    requires { TablesIn obj.now × KeptIn obj.now image.now × (n < length obj.now.heads.places.now) }
    ensures { end_meaning n (head_in obj.now n).address result
        ≡ splitting_end (image_in obj.now) n (head_in obj.now n) (bytes_of image.now.bytes.now image.now.places.now n (head_in obj.now n)) }
{
    let head = obj.heads.record::<Section>(n);
    let bytes = section_bytes(image, n, head);
    end_for_section(obj, n as u16, head, bytes)
}

// "the default (code, `.ctors`, `.dtors`, `extab`, `extabindex`: 4; else 8)"
pub fn default_alignment(head: Section, name: &[u8]) -> u32
    ensures { result ≡ default_alignment head name.now }
{
    if (head.kind == CODE) | is_four_aligned(name) {
        return 4;
    }
    8
}

// "the larger of the default .. and the highest alignment of sized symbols"
fn larger_of(least: u32, highest: u32) -> Alignment
    ensures { chosen result ≡ larger least highest }
{
    if least < highest {
        return Alignment::FromSymbol(highest);
    }
    Alignment::Default(least)
}

// "Alignment of a split": `own` is the given one, 0 if there is none, and `least` the default. Inlined, so that a given one costs no call.
#[inline(always)]
pub fn alignment_of(
    table: &Table,
    order: &[u16],
    section: u16,
    least: u32,
    own: u32,
    start: u32,
    end: u32,
) -> Result<Alignment, Backwards>
    requires { Order table.now.bytes.now table.now.places.now order.now }
    ensures { alignment_meaning section start result ≡ alignment_of (symbol_of table.now.bytes.now table.now.places.now) (length table.now.places.now) section least own start end }
{
    if own != 0 {
        return Ok(Alignment::Given(own));
    }
    let highest = highest_in(table, order, section, start, end)?;
    Ok(larger_of(least, highest))
}

// The default alignment of section n. Who has heads and names lent asks this, who has a head and its name `default_alignment`.
pub fn default_of(names: &Names, heads: &Table, n: usize) -> u32
    requires { NamedIn names.now × Held 15 heads.now.bytes.now heads.now.places.now n × ((head_of heads.now.bytes.now heads.now.places.now n).name < length names.now.places.now) }
    ensures { result ≡ default_alignment (head_of heads.now.bytes.now heads.now.places.now n) (name_at names.now.bytes.now names.now.places.now names.now.lengths.now (head_of heads.now.bytes.now heads.now.places.now n).name) }
{
    let head = heads.record::<Section>(n);
    let name = usize::from(head.name);
    default_alignment(head, name_at(names, name))
}

// "Alignment of a split" in section n, whose range is asked from `start` on. Inlined for the same reason.
#[inline(always)]
pub fn alignment_in(obj: &Obj, n: usize, s: Split, start: u32) -> Result<Alignment, Backwards>
    requires { TablesIn obj.now × Held 15 obj.now.heads.bytes.now obj.now.heads.places.now n × ((head_in obj.now n).name < length obj.now.names.places.now) × (n < 65536) }
    ensures { alignment_meaning n start result
        ≡ alignment_of (image_in obj.now).symbol (image_in obj.now).count n (default_alignment (head_in obj.now n) ((image_in obj.now).name (head_in obj.now n).name)) s.alignment start s.end }
{
    // "The given one": the section's name need not be looked at
    if s.alignment != 0 {
        return Ok(Alignment::Given(s.alignment));
    }
    let least = default_of(&obj.names, &obj.heads, n);
    alignment_of(
        &obj.symbols,
        obj.order,
        n as u16,
        least,
        s.alignment,
        start,
        s.end,
    )
}

// .. in its own section.
#[inline(always)]
pub fn split_alignment(obj: &Obj, s: Split, start: u32) -> Result<Alignment, Backwards>
    requires { TablesIn obj.now × Heads obj.now.heads.bytes.now obj.now.heads.places.now obj.now.names.places.now × (s.section < length obj.now.heads.places.now) }
    ensures { alignment_meaning s.section start result ≡ alignment_from (image_in obj.now) (head_of obj.now.heads.bytes.now obj.now.heads.places.now) start s }
{
    alignment_in(obj, usize::from(s.section), s, start)
}
