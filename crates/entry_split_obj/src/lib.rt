// The entry `split_obj` behind its C name: the checks of its tables, the walk, and what is left in the lent outputs. The columns that the checks fill are local.
// From the splits on it is stage_walk.
#![tactic(auto)]

ghost use Rattle.std.specs.Prelude.{◌≡◌, ◌≤◌, length};
ghost use Rattle.name_table.specs.Columns.{ReadableIn};
ghost use Rattle.walk.specs.Giving.{output_in};
ghost use Rattle.stage_walk.specs.Room.{room_in, within_ceilings};
ghost use Rattle.stage_walk.specs.Lines.{Gives, HeadedIn};
ghost use Rattle.stage_walk.specs.Laid.{OutputFits};
ghost use Rattle.entry_split_obj.specs.Entry.{split_obj_of, Laid, Leaves};
ghost use Rattle.entry_split_obj.specs.Lines.{from_symbols_in, split_obj_in, made_by, sizes_of};

use lent_tables::{NO_TABLES, StageTables};
use name_table::NameArrays;
use names::Names;
use obj::{Refusal, Table, word_of};
use outputs::{clear_from, put_counts};
use pieces::{Counts, PieceTables};
use stage_sections::{SectionArrays, SymbolArrays};
use stage_tables::relocs_table;
use stage_walk::{lay_output, room_of, with_splits};

// The symbols with their order, the relocations, and the tables after them.
fn with_symbols(
    names: &Names,
    heads: &Table,
    image: &Table,
    lent: &StageTables,
    tables: &mut PieceTables,
) -> Result<(), Refusal>
    requires { ReadableIn names.now
        × HeadedIn heads.now image.now names.now.places.now
        × (length names.now.lengths.now ≤ 4096) }
    ensures { Gives (from_symbols_in names.now heads.now image.now lent.now (within_ceilings tables.old.room)) tables.old tables.new result }
{
    let mut symbols = SymbolArrays::new();
    let obj = symbols.take(names, heads, lent.symbols)?;
    let n = obj.symbols.places.len();
    let mut reloc_places = [0u32; 4096];
    let mut floors = [0u32; 64];
    let relocs = relocs_table(heads, n, lent.relocs, 4096, &mut reloc_places, &mut floors)?;
    with_splits(&obj, image, &relocs, lent.splits, lent.units, tables)
}

// All tables: the names, the sections with the places of their bytes, and the tables after them.
// `entry_questions::answered` checks the same two tables first, by the same calls. One function for both would be lent the two structs of arrays, which own what it gives, and give a pair, to save a `?`.
fn checked(lent: &StageTables, tables: &mut PieceTables) -> Result<(), Refusal>
    ensures { Gives (split_obj_in lent.now (within_ceilings tables.old.room)) tables.old tables.new result }
{
    let mut columns = NameArrays::new();
    columns.check(lent.name_ends, lent.name_bytes, 4096)?;
    let names = columns.names(lent.name_ends, lent.name_bytes);
    let mut sections = SectionArrays::new();
    let headed = sections.take(
        names.lengths,
        lent.sections,
        lent.section_places,
        lent.image,
    )?;
    with_symbols(&names, &headed.heads, &headed.image, lent, tables)
}

// How many records are left of each: none after a refusal.
pub fn made_of(r: Result<(), Refusal>, made: Counts) -> Counts
    ensures { result ≡ made_by r made }
{
    r.map_or(Counts::default(), |_| made)
}

// Zeros after the records, and their numbers in the counts. The outputs of the C entry one by one: the counts are no part of PieceTables, and `made` is 0 after a refusal.
pub fn lay(
    made: Counts,
    pieces: &mut [u8],
    entries: &mut [u8],
    offsets: &mut [u8],
    counts: &mut [u8],
)
    requires { OutputFits made (length pieces.old) (length entries.old) (length offsets.old) }
    ensures { Laid (output_in pieces.old entries.old offsets.old made)
        (sizes_of pieces.old entries.old offsets.old counts.old)
        pieces.new entries.new offsets.new counts.new }
{
    lay_output(made, pieces, entries, offsets);
    clear_from(counts, 0);
    put_counts(
        counts,
        &[made.pieces as u16, made.symbols as u16, made.relocs as u16],
    );
}

// The entry: the pieces with their symbols and relocations, or a refusal, and every byte of the outputs.
pub fn split_obj(
    name_ends: &[u8],
    name_bytes: &[u8],
    sections: &[u8],
    section_places: &[u8],
    image: &[u8],
    symbols: &[u8],
    relocs: &[u8],
    splits: &[u8],
    unit_table: &[u8],
    pieces: &mut [u8],
    entries: &mut [u8],
    offsets: &mut [u8],
    counts: &mut [u8],
) -> u64
    ensures { Leaves
        (split_obj_of name_ends.now name_bytes.now sections.now section_places.now image.now symbols.now relocs.now splits.now unit_table.now (room_in (length pieces.old) (length entries.old) (length offsets.old)))
        (sizes_of pieces.old entries.old offsets.old counts.old) result pieces.new entries.new offsets.new counts.new }
{
    let mut tables = PieceTables {
        room: room_of(pieces.len(), entries.len(), offsets.len()),
        made: Counts::default(),
        pieces: &mut *pieces,
        symbols: &mut *entries,
        relocs: &mut *offsets,
    };
    let r = checked(
        &StageTables {
            name_ends,
            name_bytes,
            sections,
            section_places,
            image,
            symbols,
            relocs,
            splits,
            units: unit_table,
            ..NO_TABLES
        },
        &mut tables,
    );
    let made = made_of(r, tables.made);
    lay(made, pieces, entries, offsets, counts);
    word_of(r)
}
