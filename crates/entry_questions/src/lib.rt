// The entries `end_for_section` and `split_alignment` behind their C names: the tables, "stage tables by kind", and then one question. The columns
// that the checks fill are local.
#![tactic(auto)]

ghost use Rattle.std.specs.Prelude.{◌≡◌, length};
ghost use Rattle.obj.specs.Answers.{meaning, word};
ghost use Rattle.sections.specs.Image.{image_in, TablesIn};
ghost use Rattle.sections.specs.Sections.{head_in, sections_lent};
ghost use Rattle.name_table.specs.Columns.{ReadableIn};
ghost use Rattle.entry_questions.specs.Entry.{end_of, alignment_at, end_answer, alignment_answer, Leaves};
ghost use Rattle.entry_questions.specs.Lines.{answer_in, from_symbols_in, split_at_in, KeptIn, HeadsIn, HomesIn};

use fields::Field;
use lent_tables::{NO_TABLES, StageTables};
use name_table::NameArrays;
use names::Names;
use obj::{Refusal, Section, Split, Table, refuse, word_of};
use outputs::clear_from;
use sections::Obj;
use stage_sections::{SectionArrays, SymbolArrays};
use stage_tables::splits_table;

// What is asked: the splitting end of a section, or the alignment of a split of the table.
// An enum, as the contract says the answer by its cases: a closure would go through two functions with a contract of its own.
#[derive(Clone, Copy)]
pub enum Question {
    End { section: u16 },
    Alignment { split: u16 },
}

// The splitting end of a section: "10 `.ctors` or `.dtors` with 1 to 3 bytes"; 20 where the section is not there.
fn splitting_end(obj: &Obj, image: &Table, section: u16) -> Result<u32, Refusal>
    requires { TablesIn obj.now × KeptIn obj.now.heads image.now obj.now.names }
    ensures { meaning result ≡ end_of (image_in obj.now) (sections_lent obj.now.heads image.now) section }
{
    let n = section as usize;
    if obj.heads.places.len() <= n {
        return refuse(20, section, 0);
    }
    let start = obj.heads.record::<Section>(n).address;
    let end = sections::end_of(obj, image, n);
    end.map_err(|_| Refusal::new(10, section, start))
}

// The alignment of a split of the table: "11 start above end"; 20 where the split is not there.
fn alignment(obj: &Obj, splits: &Table, which: u16) -> Result<u32, Refusal>
    requires { TablesIn obj.now × HeadsIn obj.now × HomesIn splits.now obj.now.heads }
    ensures { meaning result ≡ alignment_at (image_in obj.now) (head_in obj.now) (length splits.now.places.now) (split_at_in splits.now) which }
{
    let k = which as usize;
    if splits.places.len() <= k {
        return refuse(20, 0, which as u32);
    }
    let s = splits.record::<Split>(k);
    let chosen = sections::split_alignment(obj, s, s.start);
    let chosen = chosen.map_err(|_| Refusal::new(11, s.section, s.start))?;
    Ok(chosen.value())
}

// The symbols with their order, the splits, and then the question.
fn with_symbols(
    names: &Names,
    heads: &Table,
    image: &Table,
    lent: &StageTables,
    question: Question,
) -> Result<u32, Refusal>
    requires { ReadableIn names.now × KeptIn heads.now image.now names.now }
    ensures { meaning result ≡ from_symbols_in names.now heads.now image.now lent.now question }
{
    let mut symbols = SymbolArrays::new();
    let obj = symbols.take(names, heads, lent.symbols)?;
    let mut split_places = [0u32; 1024];
    let splits = splits_table(names.lengths, heads, lent.splits, 1024, &mut split_places)?;
    match question {
        Question::End { section } => splitting_end(&obj, image, section),
        Question::Alignment { split } => alignment(&obj, &splits, split),
    }
}

// All tables, and the question: the names, the sections with the places of their bytes, and what comes after them.
fn answered(lent: &StageTables, question: Question) -> Result<u32, Refusal>
    ensures { meaning result ≡ answer_in lent.now question }
{
    let mut columns = NameArrays::new();
    columns.check(lent.name_ends, lent.name_bytes, 4096)?;
    let names = columns.names(lent.name_ends, lent.name_bytes);
    let mut sections = SectionArrays::new();
    let headed = sections.take(
        names.lengths,
        lent.sections,
        lent.section_places,
        lent.image,
    )?;
    with_symbols(&names, &headed.heads, &headed.image, lent, question)
}

// The number into the lent output, where it was given and fits whole; zeros else.
fn put_number(out: &mut [u8], r: Result<u32, Refusal>) -> Result<(), Refusal>
    ensures { Leaves (meaning r) (length out.old) (word result) out.new }
{
    clear_from(out, 0);
    let n = r?;
    if 4 <= out.len() {
        n.put(out, 0);
    }
    Ok(())
}

// The entry: the splitting end of a section, in four bytes of `end`.
pub fn end_for_section(
    name_ends: &[u8],
    name_bytes: &[u8],
    sections: &[u8],
    section_places: &[u8],
    image: &[u8],
    symbols: &[u8],
    section: u16,
    end: &mut [u8],
) -> u64
    ensures { Leaves (end_answer name_ends.now name_bytes.now sections.now section_places.now image.now symbols.now section) (length end.old) result end.new }
{
    let r = answered(
        &StageTables {
            name_ends,
            name_bytes,
            sections,
            section_places,
            image,
            symbols,
            ..NO_TABLES
        },
        Question::End { section },
    );
    word_of(put_number(end, r))
}

// The entry: the alignment of split `which` of the table, in four bytes of `alignment`.
pub fn split_alignment(
    name_ends: &[u8],
    name_bytes: &[u8],
    sections: &[u8],
    section_places: &[u8],
    image: &[u8],
    symbols: &[u8],
    splits: &[u8],
    which: u16,
    alignment: &mut [u8],
) -> u64
    ensures { Leaves (alignment_answer name_ends.now name_bytes.now sections.now section_places.now image.now symbols.now splits.now which) (length alignment.old) result alignment.new }
{
    let r = answered(
        &StageTables {
            name_ends,
            name_bytes,
            sections,
            section_places,
            image,
            symbols,
            splits,
            ..NO_TABLES
        },
        Question::Alignment { split: which },
    );
    word_of(put_number(alignment, r))
}
