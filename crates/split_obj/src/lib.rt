// The walk (`split_obj` of util/split.rs, its section loop): the section loop, the split loop and the halving loop stand in one function, as document 01 asks:
// "A loop inside the split loop yields the alignment by break; a misfit leaves the section loop by label." All else is a call.
#![tactic(auto)]

ghost use Rattle.std.specs.Prelude.{◌≡◌, ◌-◌, ◌<◌, ◌≤◌, length};
ghost use Rattle.splits.specs.Table.{columns_of, rows_of};
ghost use Rattle.obj.specs.Records.{Held};
ghost use Rattle.obj.specs.Answers.{meaning};
ghost use Rattle.sections.specs.Bytes.{bytes_of};
ghost use Rattle.sections.specs.Ends.{splitting_end};
ghost use Rattle.sections.specs.Image.{image_in, TablesIn};
ghost use Rattle.sections.specs.Sections.{sections_of, head_of, head_in, KeptIn};
ghost use Rattle.relocs.specs.Relocs.{reloc_of};
ghost use Rattle.pieces.specs.Tables.{SameLent};
ghost use Rattle.units.specs.Units.{unit_names};
ghost use Rattle.walk.specs.Walk.{walk_sections};
ghost use Rattle.walk.specs.Giving.{input_of, output_of, gave_meaning, Besides};
ghost use Rattle.split_obj.specs.Loop.{Ready, Tabled};

use obj::{Refusal, Section, Table};
use pieces::PieceTables;
use relocs::for_section;
use sections::{Obj, end_of};
use splits::{SectionRange, SplitColumns, next_row, row, start_of};
use walk::{NumberedUnits, Target, choose, give, refuse_at};

// Where section n starts.
fn section_start(heads: &Table, n: usize) -> u32
    requires { Held 15 heads.now.bytes.now heads.now.places.now n }
    ensures { result ≡ (head_of heads.now.bytes.now heads.now.places.now n).address }
{
    let head = heads.record::<Section>(n);
    head.address
}

// Where section n, which starts at `low`, may be split at last: 10 where it is a `.ctors` or `.dtors` of 1 to 3 bytes. A function of its own: a closure in the section loop would
// borrow the loop's number.
fn end_in(obj: &Obj, image: &Table, n: usize, low: u32) -> Result<u32, Refusal>
    requires { TablesIn obj.now × KeptIn obj.now image.now × (n < length obj.now.heads.places.now) × (n < 65536) × (low ≡ (head_in obj.now n).address) }
    ensures { meaning result ≡ splitting_end (image_in obj.now) n (head_in obj.now n) (bytes_of image.now.bytes.now image.now.places.now n (head_in obj.now n)) }
{
    end_of(obj, image, n).map_err(|_| Refusal::new(10, n as u16, low))
}

// The walk of the sections first..last, behind what is made already. What is carried from one section to the next is the output. `while` counts nothing: a turn goes to where
// the next split starts. `scratch` and `part` are columns to work
// in, of other lengths and for other things. `scratch` is three columns in one, and cut only where they are used: a struct of three would be lent on by three functions and taken
// apart there all the same. The tables that are only read stay five, as in `stage_walk`: in a struct they would be nineteen lifetimes and a literal at two callers, and each call of the
// loop takes one to three of them. `trim::CheckedTables`, which has `obj` and `image`, is private to the trim and holds another fact of the symbols.
pub fn walk_sections(
    scratch: &mut [u16],
    part: &mut [u16],
    tables: &mut PieceTables,
    obj: &Obj,
    image: &Table,
    relocs: &Table,
    splits: &SplitColumns,
    units: &NumberedUnits,
    first: usize,
    last: usize,
) -> Result<(), Refusal>
    requires { Ready obj.now.symbols.bytes.now obj.now.symbols.places.now obj.now.order.now obj.now.names.bytes.now obj.now.names.places.now obj.now.names.lengths.now obj.now.heads.bytes.now obj.now.heads.places.now image.now.bytes.now image.now.places.now relocs.now.bytes.now relocs.now.places.now units.now.table.places.now units.now.numbers.now (columns_of splits.now) splits.now.count last
        × Tabled (length obj.now.symbols.places.now) (length relocs.now.places.now) (length units.now.table.places.now) scratch.old part.old tables.old
        × (first ≤ last) }
    ensures { (gave_meaning tables.new result
        ≡ walk_sections (input_of (image_in obj.now) (sections_of obj.now.heads.bytes.now obj.now.heads.places.now image.now.bytes.now image.now.places.now) (reloc_of relocs.now.bytes.now relocs.now.places.now) (length relocs.now.places.now) (rows_of splits.now) (unit_names units.now.table.bytes.now units.now.table.places.now) tables.old.room) first (last - first) (output_of tables.old))
        × Besides (length obj.now.symbols.places.now) scratch.new tables.new result
        × SameLent tables.old tables.new }
{
    'sections: {
        for n in first..last {
            let low = section_start(&obj.heads, n);
            let end = end_in(obj, image, n, low)?;
            let m = for_section(relocs, n as u16, part);
            let mut current = low;
            let range = SectionRange {
                section: n as u16,
                from: low,
                to: end,
            };
            let mut i = next_row(splits, range, 0);
            while current < end {
                let Some(k) = i else {
                    return refuse_at(70, n, current);
                };
                let s = row(splits, k);
                i = next_row(splits, range, k + 1);
                let next = start_of(splits, i, end);
                let target = choose(obj, image, units, n, s, current, next)?;
                if let Some(Target { unit, alignment }) = target {
                    let mut a = alignment;
                    let alignment = loop {
                        if current % a == 0 {
                            break a;
                        }
                        if a <= 4 {
                            break 'sections refuse_at(75, n, current);
                        }
                        a /= 2;
                    };
                    let fit = Target { unit, alignment };
                    give(scratch, tables, obj, relocs, &part[..m], n, s, fit)?;
                }
                current = next;
            }
        }
        Ok(())
    }
}
