// The entry `piece_bytes` behind its C name: where in the lent image a piece's bytes lie, so that a caller reads them there and copies nothing.
// It asks the section heads, the places of their bytes and the piece table as `split_obj` takes and gives them.
#![tactic(auto)]

ghost use Rattle.std.specs.Prelude.{◌≡◌, length, ◌+◌, ◌≤◌};
ghost use Rattle.obj.specs.Answers.{meaning, word};
ghost use Rattle.entry_piece_bytes.specs.Entry.{place_of, outside, reach, Leaves};
ghost use Rattle.entry_piece_bytes.specs.Lent.{of_lent, in_lent, within_lent};

use fields::Field;
use obj::{Record, Refusal, Section, record_in, refuse, word_of};
use outputs::clear_from;
use pieces::{PIECE_BYTES, Piece};
use tables::{bytes_cut, image_place, table_size};

// Where a piece's bytes lie in the image.
#[derive(Clone, Copy)]
pub struct Place {
    pub offset: u32,
    pub length: u32,
}

// The heads of the sections, where in the image the bytes of each start, and the image.
#[derive(Clone, Copy)]
pub struct LentSections<'h, 'p, 'i> {
    pub heads: &'h [u8],
    pub places: &'p [u8],
    pub image: &'i [u8],
}

// As far as an offset of four bytes reaches into the image.
fn reach_of(image: usize) -> usize
    ensures { result ≡ reach image }
{
    image.min(0xFFFF_FFFF)
}

// The piece starts below its section's start, or ends above its end. Nothing was checked of the two yet, so either end may be above all addresses.
fn is_outside(head: Section, p: Piece) -> bool
    ensures { result ≡ outside head p }
{
    let end = u64::from(p.address) + u64::from(p.size);
    (p.address < head.address) | (head.end() < end)
}

// The bytes of a piece that lies in its section, whose bytes start at `start` of the image: "A piece's bytes are a returned part of the section's bytes, no copy".
fn part_of(image: &[u8], start: usize, head: Section, p: Piece) -> &[u8]
    requires { (start + head.size ≤ length image.now) × (head.address ≤ p.address) × (p.address + p.size ≤ head.address + head.size) }
    ensures { length result.now ≡ p.size }
{
    let end = start + (head.size as usize);
    let bytes = &image[start..end];
    let from = (p.address - head.address) as usize;
    pieces::piece_bytes(bytes, from, from + (p.size as usize))
}

// The place of a piece whose section has this head: 1 where the section's bytes are cut, 72 where the piece lies outside; none for kind 3.
fn find_within(lent: &LentSections, head: Section, p: Piece) -> Result<Place, Refusal>
    ensures { meaning result ≡ within_lent lent.now head p }
{
    let n = p.section as usize;
    if bytes_cut(lent.places, reach_of(lent.image.len()), n, head) {
        return refuse(1, 0, p.section as u32);
    }
    if is_outside(head, p) {
        return refuse(72, p.section, p.address);
    }
    if head.is_bss() {
        return Ok(Place {
            offset: 0,
            length: 0,
        });
    }
    let start = image_place(lent.places, n);
    let part = part_of(lent.image, start as usize, head, p);
    Ok(Place {
        offset: start + (p.address - head.address),
        length: part.len() as u32,
    })
}

// The place of a piece: 20 where its section is not there.
fn find_in_section(lent: &LentSections, p: Piece) -> Result<Place, Refusal>
    ensures { meaning result ≡ in_lent lent.now p }
{
    let n = p.section as usize;
    if lent.heads.len() / Section::WIDTH <= n {
        return refuse(20, p.section, 0);
    }
    find_within(lent, record_in(lent.heads, n), p)
}

// The place of the piece of this number: 20 where it is not there.
fn find_piece(lent: &LentSections, pieces: &[u8], which: u32) -> Result<Place, Refusal>
    ensures { meaning result ≡ of_lent lent.now pieces.now which }
{
    let k = which as usize;
    if pieces.len() / PIECE_BYTES <= k {
        return refuse(20, 0, which);
    }
    find_in_section(lent, record_in(pieces, k))
}

// The same, after the sizes of the two tables of records.
fn find(lent: &LentSections, pieces: &[u8], which: u32) -> Result<Place, Refusal>
    ensures { meaning result ≡ place_of lent.now.heads.now lent.now.places.now lent.now.image.now pieces.now which }
{
    table_size(lent.heads.len(), Section::WIDTH, 64)?;
    table_size(pieces.len(), PIECE_BYTES, 1024)?;
    find_piece(lent, pieces, which)
}

// The place into the lent output, where it was given and fits whole; zeros else.
fn put_place(out: &mut [u8], r: Result<Place, Refusal>) -> Result<(), Refusal>
    ensures { Leaves (meaning r) (length out.old) (word result) out.new }
{
    clear_from(out, 0);
    let p = r?;
    if 8 <= out.len() {
        p.offset.put(out, 0);
        p.length.put(out, 4);
    }
    Ok(())
}

// The entry: where the bytes of piece `which` lie in the image, an offset and a length, in eight bytes of `place`.
pub fn piece_bytes(
    sections: &[u8],
    section_places: &[u8],
    image: &[u8],
    pieces: &[u8],
    which: u32,
    place: &mut [u8],
) -> u64
    ensures { Leaves (place_of sections.now section_places.now image.now pieces.now which) (length place.old) result place.new }
{
    let lent = LentSections {
        heads: sections,
        places: section_places,
        image,
    };
    let r = find(&lent, pieces, which);
    word_of(put_place(place, r))
}
