// What a split asks for: all refusals from 71 to 74, and 11 of its alignment, before anything is written. `n` is the number of the split's section.
ghost use Rattle.std.specs.Prelude.{◌≡◌, false, ◌&&◌, leb, ltb, ◌+◌, ◌<◌, ◌≤◌, length};
ghost use Rattle.align.specs.Align.{bad_align};
ghost use Rattle.obj.specs.Answers.{meaning};
ghost use Rattle.sections.specs.Image.{image_in};
ghost use Rattle.sections.specs.Sections.{sections_of, head_of};
ghost use Rattle.units.specs.Units.{unit_names};
ghost use Rattle.walk.specs.Walk.{alignment_in};
ghost use Rattle.walk.specs.Steps.{SectionThere, SectionNamed, Asked, between_of, AlignedAt, decide, Sane};

use crate::{NumberedUnits, Target, refuse_at};
use fields::number;
use obj::{Refusal, Section, Split, Table};
use pieces::piece_bytes;
use sections::{Obj, alignment_in, is_zero, section_bytes};
use symbols::Backwards;

// As `contains_range` of obj/sections.rs.
fn is_inside(head: Section, from: u32, to: u32) -> bool
    requires { head.address + head.size ≤ 4026531840 }
    ensures { result ≡ ((leb head.address from && ltb from (head.address + head.size)) && (ltb head.address to && leb to (head.address + head.size))) }
{
    let start = head.address;
    let end = start + head.size;
    ((start <= from) & (from < end)) & ((start < to) & (to <= end))
}

// "bytes between two, or from the last to the splitting end, must be zero": 72, 73, or nothing where they are or where there are none.
fn between(
    heads: &Table,
    image: &Table,
    n: usize,
    from: u32,
    to: u32,
    current: u32,
) -> Result<(), Refusal>
    requires { SectionThere heads.now.bytes.now heads.now.places.now image.now.bytes.now image.now.places.now n × (n < 65535) }
    ensures { meaning result ≡ between_of (sections_of heads.now.bytes.now heads.now.places.now image.now.bytes.now image.now.places.now) n current from to }
{
    if to <= from {
        return Ok(());
    }
    let head = heads.record::<Section>(n);
    if !is_inside(head, from, to) {
        return refuse_at(72, n, current);
    }
    let bytes = section_bytes(image, n, head);
    let start = head.address;
    let part = piece_bytes(bytes, (from - start) as usize, (to - start) as usize);
    if is_zero(part) {
        return Ok(());
    }
    refuse_at(73, n, current)
}

// The value of the "Alignment of a split" in section n, asked from `start` on; its range may be asked backwards (11).
fn alignment_at(obj: &Obj, n: usize, s: Split, start: u32) -> Result<u32, Backwards>
    requires { Asked obj.now.symbols.bytes.now obj.now.symbols.places.now obj.now.order.now obj.now.names.bytes.now obj.now.names.places.now obj.now.names.lengths.now
        × SectionNamed obj.now.heads.bytes.now obj.now.heads.places.now obj.now.names.places.now n
        × (bad_align s.alignment ≡ false) }
    ensures { AlignedAt
        (alignment_in (image_in obj.now) (head_of obj.now.heads.bytes.now obj.now.heads.places.now n) n start s)
        n start result }
{
    let alignment = alignment_in(obj, n, s, start)?;
    Ok(alignment.value())
}

// Where the split s at `current` gives to, unless it is skipped; the next one, or the splitting end, is at `next`.
pub fn choose(
    obj: &Obj,
    image: &Table,
    units: &NumberedUnits,
    n: usize,
    s: Split,
    current: u32,
    next: u32,
) -> Result<Option<Target>, Refusal>
    requires { Asked obj.now.symbols.bytes.now obj.now.symbols.places.now obj.now.order.now obj.now.names.bytes.now obj.now.names.places.now obj.now.names.lengths.now
        × SectionThere obj.now.heads.bytes.now obj.now.heads.places.now image.now.bytes.now image.now.places.now n
        × SectionNamed obj.now.heads.bytes.now obj.now.heads.places.now obj.now.names.places.now n
        × (s.unit < length units.now.numbers.now)
        × (bad_align s.alignment ≡ false) }
    ensures { (meaning result ≡ decide (image_in obj.now) (sections_of obj.now.heads.bytes.now obj.now.heads.places.now image.now.bytes.now image.now.places.now) (unit_names units.now.table.bytes.now units.now.table.places.now) n current next s)
        × Sane (length units.now.table.places.now) current s result }
{
    if s.start != current {
        return refuse_at(71, n, current);
    }
    between(&obj.heads, image, n, s.end, next, current)?;
    if s.is_skipped() {
        return Ok(None);
    }
    let unit = number(units.numbers, s.unit as usize);
    if unit == units.table.places.len() {
        return refuse_at(74, n, current);
    }
    let asked = alignment_at(obj, n, s, current);
    let alignment = asked.map_err(|_| Refusal::new(11, n as u16, current))?;
    Ok(Some(Target { unit, alignment }))
}
