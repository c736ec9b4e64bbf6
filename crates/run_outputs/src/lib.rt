// What a run leaves in the outputs: of each table the records that its answer keeps, zeros after them, and their numbers in the counts.
#![tactic(auto)]

ghost use Rattle.std.specs.Prelude.{◌≡◌, ◌*◌, ◌≤◌, length};
ghost use Rattle.lists.specs.Tables.{laid};
ghost use Rattle.outputs.specs.Outputs.{halves, counts_of};
ghost use Rattle.stage_names.specs.StageNames.{ends_from, flat};
ghost use Rattle.stage_names.specs.Output.{SameLent as SameTable};
ghost use Rattle.gap_splits.specs.Added as entering;
ghost use Rattle.run.specs.Answers.{Names as NamesRead};
ghost use Rattle.run_outputs.specs.Kept.{kept_by, word_of, Countable, listed};
ghost use Rattle.run_outputs.specs.Outputs.{beside_of, left_to, FitsIn, LaidIn, SameOutputs};

use names::Names;
use obj::{Refusal, word_of};
use order::Unlinked;
use outputs::{clear_from, put_counts};
use run::Ran;
pub use run::Ran as Kept;
use splits::SplitColumns;
use stage_names::{NameOutput, first_names, put_names};
use stage_splits::put_splits;
use stage_walk::lay_output;

// The outputs that are lent to a run: the ends and the bytes of the names that are added, the splits, the tables of its end, and the counts of all of them.
#[derive(Drop)]
pub struct RunOutputs<'e, 'b, 's, 'u, 'p, 'y, 'o, 'c> {
    pub ends: &'e mut [u8],
    pub bytes: &'b mut [u8],
    pub splits: &'s mut [u8],
    pub units: &'u mut [u8],
    pub pieces: &'p mut [u8],
    pub entries: &'y mut [u8],
    pub offsets: &'o mut [u8],
    pub counts: &'c mut [u8],
}

// How many records an answer keeps in each table: those that it left, of a cycle its units, and none where it refused.
pub fn kept_of(r: Result<Ran, Unlinked>) -> Kept
    ensures { result ≡ kept_by r }
{
    // by a match: each of the three keeps something else, and a closure for the error would take it apart by the same match
    let units = match r {
        Ok(ran) => return ran,
        Err(Unlinked::Cycle(units)) => units,
        Err(Unlinked::Refused(_)) => 0,
    };
    Kept {
        units,
        ..Kept::default()
    }
}

// The answer as a word; "61 cycle" at (0, 0).
pub fn word_for(r: Result<Ran, Unlinked>) -> u64
    ensures { result ≡ word_of r }
{
    match r {
        Ok(_) => 0,
        Err(why) => word_of(Err(Refusal::from(why))),
    }
}

// The added names with their ends, and zeros after them. The two outputs are lent alone, as C lends them: they are no columns of one table.
fn lay_names(added: &Names, names: usize, used: usize, output: &mut NameOutput)
    requires { NamesRead (beside_of added.now) names used (length output.old.ends.now) (length output.old.bytes.now)
        × (2 * names ≤ length output.old.ends.now) }
    ensures laid { (output.new.ends.now ≡ laid (length output.old.ends.now) (halves (ends_from 0 (entering.added (beside_of added.now) names))))
        × (output.new.bytes.now ≡ laid (length output.old.bytes.now) (flat (entering.added (beside_of added.now) names))) }
    ensures lent { SameTable output.old output.new }
{
    put_names(&first_names(added, names), 0, 0, output);
    clear_from(output.ends, 2 * names);
    clear_from(output.bytes, used);
}

// The seven counts, as many as fit, and zeros after them.
fn lay_counts(counts: &mut [u8], k: Kept)
    requires { Countable k }
    ensures { counts.new ≡ counts_of (length counts.old) (listed k) }
{
    let made = k.made;
    clear_from(counts, 0);
    put_counts(
        counts,
        &[
            k.names as u16,
            k.used as u16,
            k.splits as u16,
            k.units as u16,
            made.pieces as u16,
            made.symbols as u16,
            made.relocs as u16,
        ],
    );
}

// What is kept in each table, and zeros after it.
pub fn lay(k: Kept, added: &Names, splits: &SplitColumns, outputs: &mut RunOutputs)
    requires { FitsIn added.now outputs.old k
        × (k.splits ≤ splits.now.count) }
    ensures laid { LaidIn (left_to added.now splits.now outputs.old k) outputs.old outputs.new }
    ensures lent { SameOutputs outputs.old outputs.new }
{
    let mut table = NameOutput {
        ends: &mut *outputs.ends,
        bytes: &mut *outputs.bytes,
    };
    lay_names(added, k.names, k.used, &mut table);
    put_splits(&splits.first(k.splits), outputs.splits);
    clear_from(outputs.units, 8 * k.units);
    lay_output(k.made, outputs.pieces, outputs.entries, outputs.offsets);
    lay_counts(outputs.counts, k);
}
