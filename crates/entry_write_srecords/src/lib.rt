// The entry `write_srecords` behind its C name: names, section heads and pieces are checked, and the joined bytes are written as S-record lines. Document 02, (n).
#![tactic(auto)]

ghost use Rattle.std.specs.Prelude.{length};
ghost use Rattle.entry_join_pieces.specs.Entry.{Writes};
ghost use Rattle.entry_write_srecords.specs.Entry.{write_srecords, Called};

use head_tables::{JoinTables, count_checked};
use kept_output::settle;
use obj::Refusal;
use write_srecords::{lines_room, write};

// The lines, if nothing was refused: how many bytes they are.
fn write_tables(lent: &JoinTables, lines: &mut [u8]) -> Result<u64, Refusal>
    ensures { Writes (write_srecords lent.now.name_ends.now lent.now.name_bytes.now lent.now.sections.now lent.now.pieces.now (length lines.old)) lines.old result lines.new }
{
    let n = count_checked(lent)?;
    write(lent.sections, lent.pieces, n, lines)?;
    let total = lines_room(lent.sections) as u64;
    Ok(total)
}

// The entry: the S3 lines of the sections that hold bytes and the S7 line, and how many bytes they are.
// As `entry_join_pieces::join_pieces`: the tables that they make differ, and what they have in common is `settle`.
pub fn write_srecords(
    name_ends: &[u8],
    name_bytes: &[u8],
    sections: &[u8],
    pieces: &[u8],
    lines: &mut [u8],
    size: &mut [u8],
) -> u64
    ensures { Called name_ends.now name_bytes.now sections.now pieces.now lines.old size.old result lines.new size.new }
{
    let lent = JoinTables {
        name_ends,
        name_bytes,
        sections,
        pieces,
    };
    let made = write_tables(&lent, lines);
    settle(made, lines, size)
}
