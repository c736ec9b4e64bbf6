// The part of a column of record numbers that lies between two keys, where the column stands by key. What the key of a number is, the caller's closure says.
ghost use Rattle.std.specs.Prelude.{◌≡◌, ℕ, ◌<◌, ◌≤◌, length};
ghost use Rattle.lists.specs.Rows.{keep_if, first_in};
ghost use Rattle.lists.specs.Sort.{between, at_least};
ghost use Rattle.symbol_order.specs.Search.{Keyed};

// That `key` may be asked at each place is a clause of all four: a struct of the column and the closure would be generic as they are, and its callers, which
// only have the closure, would make it for one call.

// The first place whose key is at least `low`, if it lies in from..=to; a place in from..=to anyway. std's `partition_point` asks that its test may be asked of any number,
// and a key may be asked of a table's records only.
fn halve<F: Fn(usize) -> u64>(s: &[u16], from: usize, to: usize, low: u64, key: &F) -> usize
    requires asked { (i : ℕ) → i < length s.now → F.pre key.now i }
    requires ends { (from ≤ to) × (to ≤ length s.now) }
    ensures inside { (from ≤ result) × (result ≤ to) }
    ensures first { (k : ℕ → ℕ) → Keyed (F.post key.now) k s.now → from ≤ first_in (at_least k low) s.now → first_in (at_least k low) s.now ≤ to → result ≡ first_in (at_least k low) s.now }
{
    // halves, so it is no count
    let mut lo = from;
    let mut hi = to;
    while lo < hi {
        let mid = lo + (hi - lo) / 2;
        if key(mid) < low {
            lo = mid + 1;
        } else {
            hi = mid;
        }
    }
    lo
}

// The first place whose key is at least `low`, the length if there is none.
pub fn first_at<F: Fn(usize) -> u64>(s: &[u16], low: u64, key: &F) -> usize
    requires { (i : ℕ) → i < length s.now → F.pre key.now i }
    ensures small { result ≤ length s.now }
    ensures first { (k : ℕ → ℕ) → Keyed (F.post key.now) k s.now → result ≡ first_in (at_least k low) s.now }
{
    halve(s, 0, s.len(), low, key)
}

// The same place, if it is not before `from`; a place from `from` on anyway. Most parts hold few numbers, so it looks close to `from` first, then twice as far each time:
// at from, from + 2, from + 6, from + 14.
fn first_from<F: Fn(usize) -> u64>(s: &[u16], from: usize, low: u64, key: &F) -> usize
    requires asked { (i : ℕ) → i < length s.now → F.pre key.now i }
    requires begun { from ≤ length s.now }
    ensures inside { (from ≤ result) × (result ≤ length s.now) }
    ensures first { (k : ℕ → ℕ) → Keyed (F.post key.now) k s.now → from ≤ first_in (at_least k low) s.now → result ≡ first_in (at_least k low) s.now }
{
    // goes twice as far each time, so it is no count
    let mut lo = from;
    while lo - from < s.len() - lo {
        let ahead = lo + (lo - from);
        if low <= key(ahead) {
            return halve(s, lo, ahead, low, key);
        }
        lo = ahead + 1;
    }
    halve(s, lo, s.len(), low, key)
}

// The numbers whose keys are from `low` to before `high`; `key` gives that of the number at a place.
pub fn part<'a, F: Fn(usize) -> u64>(s: &'a [u16], low: u64, high: u64, key: &F) -> &'a [u16]
    requires { (i : ℕ) → i < length s.now → F.pre key.now i }
    ensures { (k : ℕ → ℕ) → Keyed (F.post key.now) k s.now → result.now ≡ keep_if (between k low high) s.now }
{
    if high <= low {
        return &s[..0];
    }
    let from = first_at(s, low, key);
    let to = first_from(s, from, high, key);
    &s[from..to]
}
