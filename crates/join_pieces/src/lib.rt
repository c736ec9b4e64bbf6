// Putting an image back: document 02, (e). The pieces are laid over zeros, each in its place among the sections' bytes, and then each is compared with what lies
// there: that finds 83 in time proportional to the bytes. What other crates call takes the sections, the records and their number as they have them, and asks that the
// records are whole; `WholePieces` is what is known once 82 is passed. A public struct of the three would ask of `any_outside` what only the others ask: 64 sections at most.
#![tactic(auto)]

mod whole_pieces;

ghost use Rattle.std.specs.Prelude.{ℕ, Bool, ◌≡◌, false, ◌≤◌, ◌<◌, ◌/◌, length, get_or};
ghost use Rattle.std.proofs.lemmas.List.Edits.{sets};
ghost use Rattle.lists.specs.Rows.{some};
ghost use Rattle.obj.specs.Parts.{Part};
ghost use Rattle.join.specs.Join.{nowhere, outside, held_by, held, join_of};
ghost use Rattle.join.specs.Laying.{spot_of, laid_over, unlike, some_unlike};
ghost use Rattle.stage_tables.specs.StageTables.{stage_sections};
ghost use Rattle.piece_records.specs.Records.{part_at, parts_at, Lying, Whole};
ghost use Rattle.join_pieces.specs.Joins.{Base, Among, Joins, zeroed};

use names::{put_bytes, same};
use obj::{Refusal, Section, record_in, refuse};
use outputs::clear_from;
use piece_records::{bytes_at, head_at, next_at};
use whole_pieces::WholePieces;

// ---- the sections

// Section k's head. That there is a section k is asked wherever one is named, as an index's bound is.
pub fn head_of(sections: &[u8], k: usize) -> Section
    requires { k < length sections.now / 15 }
    ensures { result ≡ get_or (stage_sections sections.now) k nowhere }
{
    record_in(sections, k)
}

// How many bytes section k holds.
pub fn held_by(sections: &[u8], k: usize) -> u32
    requires { k < length sections.now / 15 }
    ensures { result ≡ held_by (get_or (stage_sections sections.now) k nowhere) }
{
    let s = head_of(sections, k);
    if s.is_bss() {
        return 0;
    }
    s.size
}

// How many bytes the sections before section k hold.
pub fn base_of(sections: &[u8], k: usize) -> usize
    requires { (k ≤ length sections.now / 15) × (k ≤ 64) }
    ensures { Base sections.now k result }
{
    let mut sum: usize = 0;
    // a loop: as std's sum over the places the proof did not close, for it asks that each partial sum fits, and the contract's bound is 2^32 a section
    for i in 0..k {
        sum += held_by(sections, i) as usize;
    }
    sum
}

// Some of the n pieces passes the test, which is asked where each starts, one after another.
fn any_piece<F: Fn(usize) -> bool>(b: &[u8], n: u32, test: F) -> bool
    requires whole { Whole n b.now 0 }
    requires asked { (at : ℕ) → Among n b.now at → F.pre test at }
    ensures { (p : Part → Bool) → ((at : ℕ) (r : Bool) → Among n b.now at → F.post test at r → r ≡ p (part_at b.now at)) → result ≡ some p (parts_at n b.now 0) }
{
    let mut at: usize = 0;
    for _i in 0..n {
        if test(at) {
            return true;
        }
        at = next_at(b, at);
    }
    false
}

// ---- 82

// "82, a piece names no section that holds bytes or reaches outside it".
fn is_outside(sections: &[u8], b: &[u8], at: usize) -> bool
    requires { Lying b.now at }
    ensures { result ≡ outside (stage_sections sections.now) (part_at b.now at) }
{
    let p = head_at(b, at);
    let n = p.section as usize;
    if sections.len() / 15 <= n {
        return true;
    }
    let s = head_of(sections, n);
    s.is_bss() | (p.address < s.address) | ((s.end() as usize) < p.end())
}

// Some of the n pieces is.
pub fn any_outside(sections: &[u8], b: &[u8], n: u32) -> bool
    requires { Whole n b.now 0 }
    ensures { result ≡ some (outside (stage_sections sections.now)) (parts_at n b.now 0) }
{
    any_piece(b, n, |at| is_outside(sections, b, at))
}

// ---- laying

// Where the piece's bytes stand among the joined ones.
fn spot_of(pieces: &WholePieces, at: usize) -> usize
    requires { Among pieces.now.count pieces.now.bytes.now at }
    ensures { result ≡ spot_of (stage_sections pieces.now.sections.now) (part_at pieces.now.bytes.now at) }
{
    let p = head_at(pieces.bytes, at);
    let n = p.section as usize;
    let s = head_of(pieces.sections, n);
    base_of(pieces.sections, n) + ((p.address - s.address) as usize)
}

// The bytes of all pieces are written there, one piece after another.
fn lay_pieces(pieces: &WholePieces, out: &mut [u8])
    requires { held (stage_sections pieces.now.sections.now) ≤ length out.old }
    ensures { out.new ≡ laid_over (stage_sections pieces.now.sections.now) (parts_at pieces.now.count pieces.now.bytes.now 0) out.old }
{
    let mut at: usize = 0;
    for _i in 0..pieces.count {
        put_bytes(out, spot_of(pieces, at), bytes_at(pieces.bytes, at));
        at = next_at(pieces.bytes, at);
    }
}

// ---- 83

// The piece has other bytes than those that lie in its place.
fn is_unlike(pieces: &WholePieces, at: usize, out: &[u8]) -> bool
    requires { Among pieces.now.count pieces.now.bytes.now at × (held (stage_sections pieces.now.sections.now) ≤ length out.now) }
    ensures { result ≡ unlike (stage_sections pieces.now.sections.now) out.now (part_at pieces.now.bytes.now at) }
{
    let spot = spot_of(pieces, at);
    let bytes = bytes_at(pieces.bytes, at);
    let end = spot + bytes.len();
    !same(bytes, &out[spot..end])
}

// Some piece has.
fn any_unlike(pieces: &WholePieces, out: &[u8]) -> bool
    requires { held (stage_sections pieces.now.sections.now) ≤ length out.now }
    ensures { result ≡ some_unlike (stage_sections pieces.now.sections.now) out.now (parts_at pieces.now.count pieces.now.bytes.now 0) }
{
    any_piece(pieces.bytes, pieces.count, |at| is_unlike(pieces, at, out))
}

// ---- the joiner

// The pieces over zeros in the first bytes of the output.
pub fn lay_over_zeros(sections: &[u8], b: &[u8], n: u32, total: usize, out: &mut [u8])
    requires { (length sections.now / 15 ≤ 64)
        × Whole n b.now 0
        × (some (outside (stage_sections sections.now)) (parts_at n b.now 0) ≡ false)
        × (total ≡ held (stage_sections sections.now))
        × (total ≤ length out.old) }
    ensures { out.new ≡ laid_over (stage_sections sections.now) (parts_at n b.now 0) (zeroed total out.old) }
{
    clear_from(&mut out[..total], 0);
    let pieces = WholePieces {
        sections,
        bytes: b,
        count: n,
    };
    lay_pieces(&pieces, out);
}

// 80, 82, 83, and the joined bytes in the first bytes of the output; those past them stay.
pub fn join(sections: &[u8], b: &[u8], n: u32, out: &mut [u8]) -> Result<(), Refusal>
    requires { (length sections.now / 15 ≤ 64) × Whole n b.now 0 }
    ensures { Joins (join_of (stage_sections sections.now) (length out.old) (parts_at n b.now 0)) out.old result out.new }
{
    let total = base_of(sections, sections.len() / 15);
    if out.len() < total {
        return refuse(80, 0, 0);
    }
    if any_outside(sections, b, n) {
        return refuse(82, 0, 0);
    }
    lay_over_zeros(sections, b, n, total, out);
    let pieces = WholePieces {
        sections,
        bytes: b,
        count: n,
    };
    if any_unlike(&pieces, out) {
        return refuse(83, 0, 0);
    }
    Ok(())
}
