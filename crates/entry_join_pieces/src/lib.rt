// The entry `join_pieces` behind its C name: names, section heads and pieces are checked, and the pieces' bytes are joined. Document 02, (e).
#![tactic(auto)]

ghost use Rattle.std.specs.Prelude.{length};
ghost use Rattle.kept_output.specs.Kept.{Leaves};
ghost use Rattle.entry_join_pieces.specs.Entry.{join_pieces, Writes};

use head_tables::{JoinTables, count_checked};
use join_pieces::{base_of, join};
use kept_output::settle;
use obj::Refusal;

// The bytes that were joined, if nothing was refused: how many they are.
fn join_tables(lent: &JoinTables, joined: &mut [u8]) -> Result<u64, Refusal>
    ensures { Writes (join_pieces lent.now.name_ends.now lent.now.name_bytes.now lent.now.sections.now lent.now.pieces.now (length joined.old)) joined.old result joined.new }
{
    let n = count_checked(lent)?;
    join(lent.sections, lent.pieces, n, joined)?;
    let total = base_of(lent.sections, lent.sections.len() / 15) as u64;
    Ok(total)
}

// The entry: the joined bytes of the sections that hold bytes, one after another, and how many they are.
pub fn join_pieces(
    name_ends: &[u8],
    name_bytes: &[u8],
    sections: &[u8],
    pieces: &[u8],
    joined: &mut [u8],
    size: &mut [u8],
) -> u64
    ensures { Leaves (join_pieces name_ends.now name_bytes.now sections.now pieces.now (length joined.old)) joined.old size.old result joined.new size.new }
{
    let lent = JoinTables {
        name_ends,
        name_bytes,
        sections,
        pieces,
    };
    let made = join_tables(&lent, joined);
    settle(made, joined, size)
}
