// What an entry writes into the tables that are lent to it: numbers of two bytes, the counts, and zeros after what is kept.
#![tactic(auto)]

ghost use Rattle.std.specs.Prelude.{◌≡◌, ◌*◌, ◌≤◌, ◌<◌, length};
ghost use Rattle.std.proofs.lemmas.List.Edits.{sets};
ghost use Rattle.lists.specs.Rows.{clear_from};
ghost use Rattle.outputs.specs.Outputs.{halves, store_count, store_counts};
ghost use Rattle.outputs.specs.Room.{room_for};

use fields::Field;

// How many records of `width` bytes a lent table of `size` bytes may take: "A shorter lent output table has its own length as ceiling".
pub fn room_for(ceiling: usize, width: usize, size: usize) -> usize
    requires { 0 < width }
    ensures { result ≡ room_for ceiling width size }
{
    (size / width).min(ceiling)
}

// Zeros from place `from` on: "zeros after", "all outputs zero".
pub fn clear_from(out: &mut [u8], from: usize)
    ensures { out.new ≡ clear_from 0 from out.old }
{
    if from < out.len() {
        out[from..].fill(0);
    }
}

// The numbers at the front of a table of two-byte records.
#[tactic(auto, using(crate::proofs::Laws::halves_turn, crate::proofs::Laws::halves_done))]
pub fn put_halves(out: &mut [u8], numbers: &[u16])
    requires { 2 * length numbers.now ≤ length out.old }
    ensures { out.new ≡ sets out.old 0 (halves numbers.now) }
{
    for (i, number) in numbers.iter().enumerate() {
        number.put(out, 2 * i);
    }
}

// Count k, where it fits whole into the lent counts.
#[tactic(auto, unfolding(crate::specs::Outputs::store_count))]
pub fn put_count(counts: &mut [u8], k: usize, count: u16)
    requires { k ≤ 64 }
    ensures { counts.new ≡ store_count k count counts.old }
{
    if 2 * k + 2 <= counts.len() {
        count.put(counts, 2 * k);
    }
}

// The counts from the first on, as many as fit whole; behind them what was lent.
#[tactic(auto, using(crate::proofs::Laws::counts_turn, crate::proofs::Laws::counts_done))]
pub fn put_counts(counts: &mut [u8], numbers: &[u16])
    requires { length numbers.now ≤ 64 }
    ensures { counts.new ≡ store_counts 0 numbers.now counts.old }
{
    for (k, number) in numbers.iter().enumerate() {
        put_count(counts, k, *number);
    }
}
