// The walk (`split_obj`, its section loop), split by split: what a split asks for, and what it gives to the output. The loops over sections and splits are in
// the crate `split_obj`.
#![tactic(auto)]

mod choice;
mod entries;
mod numbered_units;
mod output;

ghost use Rattle.std.specs.Prelude.{◌≡◌, ◌<◌, Err};

pub use choice::choose;
pub use numbered_units::NumberedUnits;
use obj::{Refusal, refuse};
pub use output::give;

// Where a split that is not skipped gives to: this unit, with this alignment, which the loop over splits halves until it fits.
#[derive(Clone, Copy)]
pub struct Target {
    pub unit: usize,
    pub alignment: u32,
}

// 76: an output table has no room for what a split gives.
#[derive(Clone, Copy, Debug, PartialEq, Eq)]
pub struct Full;

// "(section, current)": where the walk refuses.
pub fn refuse_at<T>(number: u16, n: usize, current: u32) -> Result<T, Refusal>
    requires { n < 65536 }
    ensures { result ≡ Err (record { number = number; section = n; address = current }) }
{
    refuse(number, n as u16, current)
}
