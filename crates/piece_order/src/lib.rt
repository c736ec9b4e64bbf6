// The numbers of pieces by section and address: document 02, (n), compares a piece only with one before it. The sort and the key are those of symbol_order.
#![tactic(auto)]

ghost use Rattle.std.specs.Prelude.{◌≡◌, ◌<◌, ◌≤◌, length};
ghost use Rattle.piece_records.specs.Records.{Whole};
ghost use Rattle.symbol_order.specs.Order.{numbers};
ghost use Rattle.piece_order.specs.Order.{starts_at, part_in, key_of, order_in, Placed};

use piece_records::{head_at, next_at};
use symbol_order::{key_of, sort};

// Where each of the pieces starts, of which there are as many as places.
pub fn fill_starts(b: &[u8], starts: &mut [usize])
    requires { Whole (length starts.old) b.now 0 }
    ensures { starts.new ≡ starts_at (length starts.old) b.now 0 }
{
    let mut at: usize = 0;
    for start in starts.iter_mut() {
        *start = at;
        at = next_at(b, at);
    }
}

// 0, 1, 2, and so on.
fn fill_numbers(order: &mut [u16])
    requires { length order.old ≤ 65535 }
    ensures { order.new ≡ numbers (length order.old) }
{
    for (i, number) in order.iter_mut().enumerate() {
        *number = i as u16;
    }
}

// The key of piece i: its section and address.
fn key_of_piece(b: &[u8], starts: &[usize], i: usize) -> u64
    requires { Placed b.now starts.now × (i < length starts.now) }
    ensures { result ≡ key_of (part_in b.now starts.now i) }
{
    let p = head_at(b, starts[i]);
    key_of(p.section, p.address)
}

// The pieces' numbers by section and address. std's `sort_unstable_by_key`, with the number in the key so that no two are equal, asks that the key may be asked of every number,
// and this one is asked only of those that are pieces.
pub fn order_pieces(b: &[u8], starts: &[usize], order: &mut [u16])
    requires { Placed b.now starts.now × (length starts.now ≤ 1024) × (length order.old ≡ length starts.now) }
    ensures { order.new ≡ order_in b.now starts.now }
{
    let mut scratch = [0u16; 1024];
    fill_numbers(order);
    sort(order, &mut scratch, &|i| key_of_piece(b, starts, i));
}
