// Alignments: which are good, and the next address that has one.
#![tactic(auto)]

ghost use Rattle.std.specs.Prelude.{◌≡◌, true, ◌≤◌};
ghost use Rattle.align.specs.Align.{good_align, bad_align, Aligned};

// "exactly one bit is set and it is at most 65,536" (document 01).
pub fn good(a: u32) -> bool
    ensures { result ≡ good_align a }
{
    a.is_power_of_two() && a <= 65536
}

// Given, and not good: 0 means none.
pub fn bad(a: u32) -> bool
    ensures { result ≡ bad_align a }
{
    a != 0 && !good(a)
}

// The least multiple of a good alignment at or above `value`. The trailing zeros give the exponent, by which the low bits are shifted out and zeros in.
pub fn align_up(value: u32, align: u32) -> u32
    requires { (value ≤ 4026531840) × (good_align align ≡ true) }
    ensures { Aligned value align result }
{
    let e = align.trailing_zeros();
    ((value + (align - 1)) >> e) << e
}
