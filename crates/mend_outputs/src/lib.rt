// The outputs of `mend_splits`: the mended rows, the lines, and the counts of both. They are given where the mending was accepted, zeros
// throughout after a refusal; what is lent beyond stays.
#![tactic(auto)]

ghost use Rattle.std.specs.Prelude.{◌≡◌, ◌*◌, ◌≤◌, length};
ghost use Rattle.mend.specs.Steps.{line_bytes};
ghost use Rattle.obj.specs.Records.{split_width};
ghost use Rattle.mend_outputs.specs.Lent.{StoresIn, FinishesIn, SameLent};

use kept_output::clear_refused;
use obj::{Refusal, word_of};
use outputs::put_counts;
use splits::{SplitColumns, store};

// The outputs that are lent to the mending.
#[derive(Drop)]
pub struct MendOutputs<'s, 'l, 'c> {
    pub splits: &'s mut [u8],
    pub lines: &'l mut [u8],
    pub counts: &'c mut [u8],
}

// The rows at the front of the output, and in the counts how many they are and how many bytes of lines there are; nothing after a refusal.
pub fn give_mended(
    r: Result<usize, Refusal>,
    splits: &SplitColumns,
    outputs: &mut MendOutputs,
) -> Result<(), Refusal>
    requires { (split_width * splits.now.count ≤ length outputs.old.splits.now) × (splits.now.count ≤ 1024) × (line_bytes r ≤ 49152) }
    ensures stores { StoresIn r splits.now result outputs.old outputs.new }
    ensures lines { outputs.new.lines.now ≡ outputs.old.lines.now }
    ensures lent { SameLent outputs.old outputs.new }
{
    let size = r?;
    store(splits, outputs.splits);
    put_counts(outputs.counts, &[splits.count as u16, size as u16]);
    Ok(())
}

// The end of the entry: its answer as a word, and all outputs zero after a refusal.
pub fn finish(a: Result<(), Refusal>, outputs: &mut MendOutputs) -> u64
    ensures finishes { FinishesIn a result outputs.old outputs.new }
    ensures lent { SameLent outputs.old outputs.new }
{
    clear_refused(a, outputs.splits);
    clear_refused(a, outputs.lines);
    clear_refused(a, outputs.counts);
    word_of(a)
}
