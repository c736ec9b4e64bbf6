// The lines of all sections, written from the front of the lent bytes on while their joined bytes are read behind: document 02, (n).
// Sections, records and their number are three parameters, as the functions of join_pieces take them.
#![tactic(auto)]

ghost use Rattle.std.specs.Prelude.{◌≡◌, ◌+◌, ◌*◌, ◌≤◌, ◌<◌, ◌/◌, length, get_or, take, drop, ◌++◌};
ghost use Rattle.std.proofs.lemmas.List.Edits.{sets};
ghost use Rattle.join.specs.Join.{nowhere, held_by, held};
ghost use Rattle.join_pieces.specs.Joins.{Joins};
ghost use Rattle.stage_tables.specs.StageTables.{stage_sections};
ghost use Rattle.piece_records.specs.Records.{parts_at, Whole};
ghost use Rattle.srecord_text.specs.Room.{lines_size, Fits};
ghost use Rattle.lists.specs.Rows.{some};
ghost use Rattle.srecords.specs.Lines.{section_lines, lines_of, share_address, some_share, write_of, Ended};
ghost use Rattle.write_srecords.specs.Along.{room_along, all_lines, Ready, Laying};

use join_pieces::{any_outside, base_of, head_of, held_by, lay_over_zeros};
use obj::{Refusal, refuse};
use piece_sweep::any_differ;
use srecord_lines::{put_line, share_address};
use srecord_text::write_section;

// ---- 87

// Section k shares an address with a later one.
fn shares_later(sections: &[u8], k: usize) -> bool
    requires { k < length sections.now / 15 }
    ensures { result ≡ some (share_address (get_or (stage_sections sections.now) k nowhere)) (drop (k + 1) (stage_sections sections.now)) }
{
    let s = head_of(sections, k);
    (k + 1..sections.len() / 15).any(|j| share_address(s, head_of(sections, j)))
}

// "87, two sections that hold bytes share an address".
pub fn any_share(sections: &[u8]) -> bool
    ensures { result ≡ some_share (stage_sections sections.now) }
{
    (0..sections.len() / 15).any(|k| shares_later(sections, k))
}

// ---- 80

// How many bytes the lines of so many data bytes take.
fn lines_size(size: u32) -> usize
    ensures { result ≡ lines_size size }
{
    let n = size as usize;
    15 * ((n + 15) / 16) + 2 * n
}

// How many bytes all lines take.
pub fn lines_room(sections: &[u8]) -> usize
    requires { length sections.now / 15 ≤ 64 }
    ensures { result ≡ room_along (stage_sections sections.now) + 15 }
{
    let mut sum: usize = 15;
    // a loop, as in join_pieces::base_of: std's sum asks that each partial sum fits, and that did not prove there
    for k in 0..sections.len() / 15 {
        sum += lines_size(held_by(sections, k));
    }
    sum
}

// ---- the lines

// The lines of section k, whose bytes lie from `from` on.
fn write_one(sections: &[u8], out: &mut [u8], k: usize, to: usize, from: usize)
    requires { (k < length sections.now / 15) × Fits out.old to from (held_by (get_or (stage_sections sections.now) k nowhere)) (get_or (stage_sections sections.now) k nowhere).address }
    ensures { out.new ≡ sets out.old to (section_lines (get_or (stage_sections sections.now) k nowhere).address (take (held_by (get_or (stage_sections sections.now) k nowhere)) (drop from out.old))) }
{
    let s = head_of(sections, k);
    write_section(out, to, from, s.address, held_by(sections, k));
}

// The lines of all sections, and the S7 line.
pub fn write_lines(sections: &[u8], out: &mut [u8], from: usize)
    requires { Ready sections.now out.old from }
    ensures { out.new ≡ sets out.old 0 (all_lines (stage_sections sections.now) (take (held (stage_sections sections.now)) (drop from out.old))) }
{
    let n = sections.len() / 15;
    let mut at: usize = 0;
    let mut read = from;
    for k in 0..n {
        write_one(sections, out, k, at, read);
        let size = held_by(sections, k);
        at += lines_size(size);
        read += size as usize;
    }
    put_line(out, at, b'7', 0, &[]);
}

// The pieces laid at the end of the room for the lines, and the lines written over it; bytes past the lines stay.
fn lay_lines(sections: &[u8], b: &[u8], n: u32, room: usize, out: &mut [u8])
    requires { Laying sections.now b.now n room out.old }
    ensures { out.new ≡ lines_of (stage_sections sections.now) (parts_at n b.now 0) ++ drop room out.old }
{
    let total = base_of(sections, sections.len() / 15);
    let from = room - total;
    lay_over_zeros(sections, b, n, total, &mut out[from..room]);
    write_lines(sections, out, from);
}

// 87, 82, 83, 80, and the lines in the first bytes of the output; those past them stay.
pub fn write(sections: &[u8], b: &[u8], n: u32, out: &mut [u8]) -> Result<(), Refusal>
    requires { (length sections.now / 15 ≤ 64) × Whole n b.now 0 × Ended (stage_sections sections.now) × (n ≤ 1024) }
    ensures { Joins (write_of (stage_sections sections.now) (length out.old) (parts_at n b.now 0)) out.old result out.new }
{
    if any_share(sections) {
        return refuse(87, 0, 0);
    }
    if any_outside(sections, b, n) {
        return refuse(82, 0, 0);
    }
    if any_differ(b, n) {
        return refuse(83, 0, 0);
    }
    let room = lines_room(sections);
    if out.len() < room {
        return refuse(80, 0, 0);
    }
    lay_lines(sections, b, n, room, out);
    Ok(())
}
