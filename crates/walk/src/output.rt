// What a split gives to the output: its symbols, and unless it is common its relocations and its piece. `n` is the number of the split's section and `part` has the numbers
// of that section's relocations; with the split `s` they are what the loop over splits has at hand, and a struct of the three would be made anew for each split.
ghost use Rattle.std.specs.Prelude.{◌≡◌, true, cond, not, ◌&&◌, ◌||◌, eqb, ltb, ◌%◌, ◌≤◌, ◌<◌, length};
ghost use Rattle.symbol_order.specs.Order.{symbol_of, Order};
ghost use Rattle.symbols.specs.Ranges.{has_symbols};
ghost use Rattle.sections.specs.Image.{image_in, TablesIn};
ghost use Rattle.sections.specs.Sections.{head_of};
ghost use Rattle.pieces.specs.Tables.{pieces_of, relocs_of};
ghost use Rattle.piece_columns.specs.Columns.{CountedIn};
ghost use Rattle.relocs.specs.Relocs.{reloc_of};
ghost use Rattle.splits.specs.Questions.{is_common};
ghost use Rattle.walk.specs.Walk.{fits, piece_of, split_symbols};
ghost use Rattle.walk.specs.Giving.{counts_in, Beside, PieceGives, pieces_with, relocs_with, Sided, SectionRelocs, GivesOut};

use crate::entries::{add_relocs, add_symbols};
use crate::{Full, Target, refuse_at};
use obj::{Refusal, Section, Split, Table};
use piece_columns::{count_of, push_piece};
use pieces::{Piece, PieceTables};
use relocs::range;
use sections::Obj;
use symbols::{for_section_through, has_symbols};

// "rename 2 (0xFFFF none)"
const NO_NAME: u16 = 65535;

// The section's name, if the split has no other
fn name_for(head: Section, s: Split) -> u16
    ensures { result ≡ cond (eqb s.rename 65535) head.name s.rename }
{
    if s.rename == NO_NAME {
        return head.name;
    }
    s.rename
}

// "A piece also records its section number"; its offset in the file has 64 bits.
fn piece_of(head: Section, n: u16, target: Target, number: u16, s: Split) -> Piece
    requires { (target.unit < 65536) × (s.start ≤ s.end) × (head.address ≤ s.start) }
    ensures { result ≡ piece_of head n target.unit number target.alignment s }
{
    Piece {
        unit: target.unit as u16,
        number: number,
        section: n,
        name: name_for(head, s),
        address: s.start,
        size: s.end - s.start,
        alignment: target.alignment,
        offset: head.offset as u64 + (s.start - head.address) as u64,
        origin: s.origin,
    }
}

// "11 start above end, asked of a section that has such records; or a piece of negative length"; `part` are the section's relocations.
fn is_backwards(symbols: &Table, order: &[u16], part: &[u16], n: usize, s: Split) -> bool
    requires { Order symbols.now.bytes.now symbols.now.places.now order.now × (n < 65535) }
    ensures { result ≡ (ltb s.end s.start && ((not (eqb (length part.now) 0) || has_symbols (symbol_of symbols.now.bytes.now symbols.now.places.now) (length symbols.now.places.now) n) || not (is_common s))) }
{
    if s.start <= s.end {
        return false;
    }
    ((part.len() != 0) | has_symbols(symbols, order, n as u16)) | !s.is_common()
}

// The numbers of the symbols that the split takes: those of its section from its start through its end.
fn symbols_inside<'a>(obj: &'a Obj, n: usize, s: Split) -> &'a [u16]
    requires { TablesIn obj.now × (n < 65535) }
    ensures { result.now ≡ split_symbols (image_in obj.now) n s }
{
    for_section_through(
        obj.symbols.bytes,
        obj.symbols.places,
        obj.order,
        n as u16,
        s.start,
        s.end,
    )
}

// The relocations and the piece of a split that is not common, if there is room; `part` are the section's relocations.
fn give_piece(
    counts: &mut [u16],
    tables: &mut PieceTables,
    heads: &Table,
    relocs: &Table,
    part: &[u16],
    n: usize,
    s: Split,
    target: Target,
) -> Result<(), Full>
    requires { CountedIn counts.old tables.old
        × SectionRelocs relocs.now.bytes.now relocs.now.places.now part.now n
        × Sided heads.now.bytes.now heads.now.places.now n s
        × (target.unit < length counts.old) × (target.unit < 65536) × (s.start ≤ s.end)
        × (tables.old.room.pieces ≤ 1024) }
    ensures { PieceGives
        (pieces_with (head_of heads.now.bytes.now heads.now.places.now n) n target.unit target.alignment s (pieces_of tables.old))
        (relocs_with (reloc_of relocs.now.bytes.now relocs.now.places.now) (length relocs.now.places.now) n s tables.old.made.pieces (relocs_of tables.old))
        counts.new tables.old tables.new result }
{
    let inside = range(relocs, part, s.start, s.end);
    let most = tables.made.relocs + inside.len();
    if (tables.room.relocs < most) | (tables.room.pieces <= tables.made.pieces) {
        return Err(Full);
    }
    add_relocs(relocs, inside, s.start, tables);
    let head = heads.record::<Section>(n);
    let number = count_of(counts, target.unit);
    let p = piece_of(head, n as u16, target, number, s);
    push_piece(counts, tables, p);
    Ok(())
}

// The split s of section n gives to a unit, with an alignment that fits; `part` are the section's relocations.
pub fn give(
    scratch: &mut [u16],
    tables: &mut PieceTables,
    obj: &Obj,
    relocs: &Table,
    part: &[u16],
    n: usize,
    s: Split,
    target: Target,
) -> Result<(), Refusal>
    requires { Beside (length obj.now.symbols.places.now) scratch.old tables.old
        × TablesIn obj.now
        × SectionRelocs relocs.now.bytes.now relocs.now.places.now part.now n
        × Sided obj.now.heads.bytes.now obj.now.heads.places.now n s
        × (target.unit < length (counts_in scratch.old)) × (target.unit < 65536) × (fits target.alignment s.start ≡ true) }
    ensures { GivesOut
        (image_in obj.now)
        (head_of obj.now.heads.bytes.now obj.now.heads.places.now)
        (reloc_of relocs.now.bytes.now relocs.now.places.now)
        (length relocs.now.places.now)
        n target.unit target.alignment s scratch.new tables.old tables.new result }
{
    if is_backwards(&obj.symbols, obj.order, part, n, s) {
        return refuse_at(11, n, s.start);
    }
    let inside = symbols_inside(obj, n, s);
    let full = Refusal::new(76, n as u16, s.start);
    add_symbols(
        &obj.symbols,
        &obj.names,
        inside,
        s,
        target.unit as u16,
        &mut scratch[..8192],
        tables,
    )
    .map_err(|_| full)?;
    if s.is_common() {
        return Ok(());
    }
    give_piece(
        &mut scratch[8192..],
        tables,
        &obj.heads,
        relocs,
        part,
        n,
        s,
        target,
    )
    .map_err(|_| full)?;
    Ok(())
}
