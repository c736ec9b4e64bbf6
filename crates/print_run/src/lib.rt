// The run of a record file, printed: the listing of what it gives, or its refusal, to a writer. No buffer holds the whole listing: each line is written from a
// buffer of 208 bytes. Writing that fails ends the printing.
#![tactic(auto)]

ghost use Rattle.std.specs.Prelude.{◌≡◌, ◌/◌, length, OnOk};
ghost use Rattle.std.specs.Io.KnownBytes.{Appends};
ghost use Rattle.lines.specs.Lines.{refused_line};
ghost use Rattle.listing.specs.Listing.{listing};
ghost use Rattle.listing.specs.Tables.{Readable, run_of};
ghost use Rattle.listing.specs.Lent.{columns_of, tables_of};
ghost use Rattle.run.specs.Outputs.{room_lent};
ghost use Rattle.run_file.specs.RunFile.{Lent};
ghost use Rattle.print_run.specs.Printed.{PrintableLists, lists_text, PrintableIf, text_of, main_room, Prints};

use gap_splits::AddedNames;
use lines::write_refused;
use listing::{Cursor, Line, ListedTables, PieceLists, next_line};
use load::{Counts, NAMES, RELOCATIONS, SYMBOLS, part};
use names::{Names, Room};
use obj::{Refusal, Table};
use order::Unlinked;
use run::{Ran, RunTables};
use run_file::run_file;
use run_load::FileColumns;
use splits::SplitTable;
use std::io;
use std::io::Write;
use tables::fill_places;

// The listing, line by line: a unit, "After a unit's pieces come `sym` ..; then `reloc` ..", and at the end the total.
// A line says which comes next: there is nothing to count.
fn print_listed<W: Write>(
    out: &mut W,
    tables: &ListedTables,
    line: &mut [u8; 208],
) -> io::Result<()>
    ensures { OnOk result (Appends (W.contents out.old) (W.contents out.new)
        (listing (run_of (tables_of tables.now.base.now tables.now.added.now tables.now.symbols.now tables.now.relocs.now tables.now.units.now tables.now.lists.now)))) }
{
    let mut cursor = Cursor::Units { unit: 0, bytes: 0 };
    while let Some(Line { length, next }) = next_line(tables, cursor, line) {
        out.write_all(&line[..length])?;
        cursor = next;
    }
    Ok(())
}

// The listing of these tables.
fn print_lines<'a, W: Write>(
    out: &mut W,
    base: &Names<'a, '_, '_>,
    added: &Names<'a, '_, '_>,
    symbols: &Table,
    relocs: &Table,
    unit_table: &Table,
    lists: &PieceLists,
    line: &mut [u8; 208],
) -> io::Result<()>
    requires { Readable (tables_of base.now added.now symbols.now relocs.now unit_table.now lists.now) }
    ensures { OnOk result (Appends (W.contents out.old) (W.contents out.new)
        (listing (run_of (tables_of base.now added.now symbols.now relocs.now unit_table.now lists.now)))) }
{
    let tables = ListedTables {
        base,
        added,
        symbols,
        relocs,
        units: unit_table,
        lists,
    };
    print_listed(out, &tables, line)
}

// The listing of a run that was done, of n units: the parts of the column of places are the tables of names, symbols and relocations.
// They stay apart, since it reads two of the file's columns and one of the run's tables. n says how many records stand at the front of `units`: the run's answer has the count, and of
// a slice that is cut to 8 * n bytes it would be divided out again.
fn print_done<'a, W: Write>(
    out: &mut W,
    file: &'a [u8],
    counts: Counts,
    places: &[u32],
    lengths: &[u8],
    added: &Names<'a, '_, '_>,
    units: &[u8],
    n: usize,
    lists: &PieceLists,
) -> io::Result<()>
    requires { PrintableLists file.now counts places.now lengths.now (columns_of added.now) units.now n lists.now }
    ensures { OnOk result (Appends (W.contents out.old) (W.contents out.new)
        (lists_text file.now counts places.now lengths.now (columns_of added.now) units.now n lists.now)) }
{
    let names = counts.names;
    let mut unit_places = [0u32; 1024];
    let mut line = [0u8; 208];
    fill_places(&mut unit_places[..n], 8);
    print_lines(
        out,
        &Names {
            bytes: file,
            places: part(places, NAMES, names),
            lengths: &lengths[..names],
        },
        added,
        &Table {
            bytes: file,
            places: part(places, SYMBOLS, counts.symbols),
        },
        &Table {
            bytes: file,
            places: part(places, RELOCATIONS, counts.relocations),
        },
        &Table {
            bytes: units,
            places: &unit_places[..n],
        },
        lists,
        &mut line,
    )
}

// "A refusal prints only `refused`, number, section, address."
fn print_refused<W: Write>(out: &mut W, r: Refusal) -> io::Result<()>
    ensures { OnOk result (Appends (W.contents out.old) (W.contents out.new)
        (refused_line r.number r.section r.address)) }
{
    let mut line = [0u8; 208];
    let n = write_refused(&mut line, r);
    out.write_all(&line[..n])
}

// What a run prints. "61 cycle" is a refusal here, at section and address 0.
fn print_ran<'a, W: Write>(
    out: &mut W,
    ran: Result<Ran, Unlinked>,
    file: &'a [u8],
    counts: Counts,
    columns: &FileColumns,
    added: &Names<'a, '_, '_>,
    tables: &RunTables,
) -> io::Result<()>
    requires { PrintableIf file.now counts columns.now.places.now columns.now.lengths.now (columns_of added.now) tables.now.units.now tables.now.pieces.now tables.now.entries.now tables.now.offsets.now ran }
    ensures { OnOk result (Appends (W.contents out.old) (W.contents out.new)
        (text_of file.now counts columns.now.places.now columns.now.lengths.now (columns_of added.now) tables.now.units.now tables.now.pieces.now tables.now.entries.now tables.now.offsets.now ran)) }
{
    match ran {
        Ok(done) => print_done(
            out,
            file,
            counts,
            &*columns.places,
            &*columns.lengths,
            added,
            &*tables.units,
            done.units,
            &PieceLists {
                pieces: &*tables.pieces,
                symbols: &*tables.entries,
                relocs: &*tables.offsets,
                made: done.made,
            },
        ),
        Err(why) => print_refused(out, Refusal::from(why)),
    }
}

// The run of the file in lent columns, with document 01's ceilings, and what it prints.
fn print_in<'a, W: Write>(
    out: &mut W,
    file: &'a [u8],
    columns: &mut FileColumns,
    table: &mut SplitTable,
    added: &'a mut AddedNames,
    tables: &mut RunTables,
) -> io::Result<()>
    requires { Lent table.old added.old
        × (table.old.room ≡ 1024) }
    ensures { OnOk result (Prints file.now (length tables.old.units.now / 8) (room_lent tables.old) (W.contents out.old) (W.contents out.new)) }
{
    let most = Room {
        names: 4096,
        bytes: 65535,
    };
    let r = run_file(file, columns, table, added, most, tables);
    let ran = r.ran;
    let counts = r.counts;
    print_ran(out, ran, file, counts, columns, &added.names(), tables)
}

// The same, with columns of its own for the split table and the names that are added. `entry_split_file::with_tables` makes the same arrays: what is lent must lie in the function
// that lends it, what reads them after the run differs, and one function for both would take that as a closure, whose contract says all that the two say now.
fn print_with_tables<W: Write>(
    out: &mut W,
    file: &[u8],
    columns: &mut FileColumns,
    tables: &mut RunTables,
) -> io::Result<()>
    ensures { OnOk result (Prints file.now (length tables.old.units.now / 8) (room_lent tables.old) (W.contents out.old) (W.contents out.new)) }
{
    let mut table = SplitTable {
        starts: &mut [0u32; 1024],
        ends: &mut [0u32; 1024],
        units: &mut [0u16; 1024],
        rest: &mut [0u64; 1024],
        count: 0,
        room: 1024,
    };
    let mut added = AddedNames {
        bytes: &mut [0u8; 65535],
        places: &mut [0u32; 4096],
        lengths: &mut [0u8; 4096],
        count: 0,
        used: 0,
        most: Room {
            names: 4096,
            bytes: 65535,
        },
    };
    print_in(out, file, columns, &mut table, &mut added, tables)
}

// The run of the file, printed, in columns of document 01's ceilings: "64 sections, 4,096 symbols, 4,096 relocations, 1,024 splits, 1,024 units, 4,096 names of 65,535
// bytes in all" and "Outputs: 1,024 pieces, 4,096 piece symbols, 4,096 piece relocations". Where all was written, the writer took the text of the answer of the file's run.
pub fn print_run<W: Write>(out: &mut W, file: &[u8]) -> io::Result<()>
    ensures { OnOk result (Prints file.now 1024 main_room (W.contents out.old) (W.contents out.new)) }
{
    let mut places = [0u32; 14464];
    let mut lengths = [0u8; 4096];
    let mut heads = [0u16; 8192];
    let mut chain = [0u16; 4096];
    let mut images = [0u32; 64];
    let mut order = [0u16; 4096];
    let mut units = [0u8; 8192];
    let mut pieces = [0u8; 30720];
    let mut entries = [0u8; 49152];
    let mut offsets = [0u8; 32768];
    let mut columns = FileColumns {
        places: &mut places,
        lengths: &mut lengths,
        heads: &mut heads,
        chain: &mut chain,
        images: &mut images,
        order: &mut order,
    };
    let mut tables = RunTables {
        units: &mut units,
        pieces: &mut pieces,
        entries: &mut entries,
        offsets: &mut offsets,
    };
    print_with_tables(out, file, &mut columns, &mut tables)
}
