// The entry `check_file` behind its C name: the loader over columns of its own, its answer as a word, and the counts of what it loaded.
#![tactic(auto)]

ghost use Rattle.std.specs.Prelude.{length};
ghost use Rattle.tables.specs.Tables.{main_ceilings};
ghost use Rattle.load.specs.Load.{load_of};
ghost use Rattle.entry_check_file.specs.Entry.{Answers, CountedIn, Leaves};

use load::{Counts, load_file};
use obj::{Refusal, word_of};
use outputs::{clear_from, put_counts};
use tables::main_ceilings;

// The loader under document 01's ceilings, in columns of its own.
fn answer_of(file: &[u8]) -> Result<Counts, Refusal>
    ensures { Answers (load_of main_ceilings file.now) result }
{
    let mut places = [0u32; 14464];
    let mut lengths = [0u8; 4096];
    let mut heads = [0u16; 8192];
    let mut chain = [0u16; 4096];
    load_file(
        file,
        main_ceilings(),
        &mut places,
        &mut lengths,
        &mut heads,
        &mut chain,
    )
}

// The six counts of a file that is accepted, as many as fit.
fn counted(file: &[u8], counts: &mut [u8]) -> Result<(), Refusal>
    ensures { CountedIn (load_of main_ceilings file.now) counts.old counts.new result }
{
    let n = answer_of(file)?;
    put_counts(
        counts,
        &[
            n.names as u16,
            n.sections as u16,
            n.symbols as u16,
            n.relocations as u16,
            n.splits as u16,
            n.units as u16,
        ],
    );
    Ok(())
}

// The entry: 0 or a refusal, and every byte of the counts, zeros after them.
pub fn check_file(file: &[u8], counts: &mut [u8]) -> u64
    ensures { Leaves (load_of main_ceilings file.now) (length counts.old) result counts.new }
{
    clear_from(counts, 0);
    word_of(counted(file, counts))
}
