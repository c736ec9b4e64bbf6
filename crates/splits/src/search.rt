// The first place of a table that passes a test, where a cheaper test of 32 places at once says of most of them that none does. What the tests read, the callers' closures say.
ghost use Rattle.std.specs.Prelude.{◌≡◌, ℕ, ◌+◌, ◌≤◌, ◌<◌, Bool, false, length, get_or};
ghost use Rattle.lists.specs.Rows.{tabulate, some};
ghost use Rattle.splits.specs.Questions.{FirstNumber};

// Whether one of the 32 numbers of a column from `at` on passes. No early exit and a fixed count, so that the compiler compares several at a time; one column
// a call, since it does two columns in one loop at half the speed.
#[inline(always)]
pub fn any_of_block<T: Copy, F: Fn(T) -> bool>(column: &[T], at: usize, passes: F) -> bool
    requires room { at + 32 ≤ length column.now }
    requires asked { F.IsAlwaysCallable passes }
    ensures { (p : T → Bool) (d : T) → ((x : T) (r : _) → F.post passes x r → r ≡ p x) → result ≡ some p (tabulate (λ (k : ℕ). get_or column.now k d) at 32) }
{
    let mut any = false;
    for x in &column[at..at + 32] {
        any |= passes(*x);
    }
    any
}

// The first number from `from` on, below `to`, that passes. std's `find` would ask of a closure that is passed on that it may be asked of any number.
#[inline(always)]
fn first_place<P: Fn(usize) -> bool>(from: usize, to: usize, passes: &P) -> Option<usize>
    requires { (k : ℕ) → k < to → P.pre passes.now k }
    ensures { (p : ℕ → Bool) → ((k : ℕ) (r : _) → k < to → P.post passes.now k r → r ≡ p k) → FirstNumber p from to result }
{
    for k in from..to {
        if passes(k) {
            return Some(k);
        }
    }
    None
}

// The first number from `at` on, below `count`, that passes: by blocks of 32, of which only those are looked through that may hold one, then the numbers that are left.
#[inline(always)]
pub fn first_by_blocks<H: Fn(usize) -> bool, P: Fn(usize) -> bool>(
    at: usize,
    count: usize,
    may_hold: H,
    passes: P,
) -> Option<usize>
    requires begun { at ≤ count }
    requires blocks { (i : ℕ) → i + 32 ≤ count → H.pre may_hold i }
    requires asked { (k : ℕ) → k < count → P.pre passes k }
    ensures { (p : ℕ → Bool)
        → ((k : ℕ) (r : _) → k < count → P.post passes k r → r ≡ p k)
        → ((i : ℕ) → i + 32 ≤ count → H.post may_hold i false → (k : ℕ) → i ≤ k → k < i + 32 → p k ≡ false)
        → FirstNumber p at count result }
{
    let whole = count - (count - at) % 32;
    for i in (at..whole).step_by(32) {
        if may_hold(i) {
            if let Some(k) = first_place(i, i + 32, &passes) {
                return Some(k);
            }
        }
    }
    first_place(whole, count, &passes)
}
