// 83 where no bytes are lent to lay pieces on: the pieces by section and address, each compared with the one before it that reaches farthest. Document 02, (n). A
// piece is the bytes and the place where its record lies whole; a struct of the two would be made anew for each comparison.
#![tactic(auto)]

ghost use Rattle.std.specs.Prelude.{◌≡◌, map, ◌≤◌, ◌<◌, length};
ghost use Rattle.lists.specs.Sort.{All};
ghost use Rattle.join.specs.Join.{differ};
ghost use Rattle.piece_records.specs.Records.{part_at, parts_at, Lying, Whole};
ghost use Rattle.piece_order.specs.Order.{part_in, Placed};
ghost use Rattle.piece_sweep.specs.Sweep.{unequal, farther, sweep};
ghost use Rattle.piece_sweep.specs.Overlap.{bytes_in, Within, Farthest};

use names::same;
use piece_order::{fill_starts, order_pieces};
use piece_records::{bytes_at, head_at};

// The bytes of the piece at `at` from address `low` to `high`.
fn bytes_between<'a>(b: &'a [u8], at: usize, low: usize, high: usize) -> &'a [u8]
    requires { Lying b.now at × Within (part_at b.now at) low high }
    ensures { result.now ≡ bytes_in (part_at b.now at) low high }
{
    let p = head_at(b, at);
    let start = p.address as usize;
    let bytes = bytes_at(b, at);
    let from = low - start;
    let to = high - start;
    &bytes[from..to]
}

// The pieces at `far` and `at` are of one section and differ where both lie.
pub fn is_unequal(b: &[u8], far: usize, at: usize) -> bool
    requires { Lying b.now far × Lying b.now at }
    ensures { result ≡ unequal (part_at b.now far) (part_at b.now at) }
{
    let f = head_at(b, far);
    let p = head_at(b, at);
    let low = (f.address as usize).max(p.address as usize);
    let high = f.end().min(p.end());
    if f.section != p.section {
        return false;
    }
    if high <= low {
        return false;
    }
    !same(
        bytes_between(b, far, low, high),
        bytes_between(b, at, low, high),
    )
}

// Of the pieces at `far` and `at`, where the one that reaches farther starts; in another section it is the second.
fn farther(b: &[u8], far: usize, at: usize) -> usize
    requires { Lying b.now far × Lying b.now at }
    ensures { Farthest b.now (farther (part_at b.now far) (part_at b.now at)) result }
{
    let f = head_at(b, far);
    let p = head_at(b, at);
    if f.section != p.section {
        return at;
    }
    if f.end() < p.end() {
        return at;
    }
    far
}

// Each piece, in this order, is compared with the one before it in its section that reaches farthest.
fn pass(b: &[u8], starts: &[usize], order: &[u16]) -> bool
    requires { Placed b.now starts.now × All (λ k. k < length starts.now) order.now }
    ensures { result ≡ sweep (map (part_in b.now starts.now) order.now) }
{
    let Some((first, later)) = order.split_first() else {
        return false;
    };
    let mut far = starts[usize::from(*first)];
    for i in later {
        let at = starts[usize::from(*i)];
        if is_unequal(b, far, at) {
            return true;
        }
        far = farther(b, far, at);
    }
    false
}

// "83, two pieces of one section differ at an address", of at most 1,024 pieces.
pub fn any_differ(b: &[u8], n: u32) -> bool
    requires { Whole n b.now 0 × (n ≤ 1024) }
    ensures { result ≡ differ (parts_at n b.now 0) }
{
    let mut starts = [0usize; 1024];
    let mut order = [0u16; 1024];
    let n = n as usize;
    let starts = &mut starts[..n];
    let order = &mut order[..n];
    fill_starts(b, starts);
    order_pieces(b, starts, order);
    pass(b, starts, order)
}
