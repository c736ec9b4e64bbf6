// The unit that takes the pieces of a split, by its name: a column made once, with a number for each name.
#![tactic(auto)]

ghost use Rattle.std.specs.Prelude.{◌≡◌, length, get_or, replicate};
ghost use Rattle.obj.specs.Records.{unit_at, Held};
ghost use Rattle.units.specs.Units.{unit_names, Listed, Numbered};

use obj::{Table, Unit};

// The number of the unit of each name: "Of units with one name the last takes the pieces"; how many units there are, for a name that no unit has:
// a number, since a place is two bytes of a lent column, which an `Option` does not fit.
pub fn number_units(table: &Table, column: &mut [u16])
    requires { Listed table.now.bytes.now table.now.places.now column.old }
    ensures { Numbered column.new (unit_names table.now.bytes.now table.now.places.now) }
{
    column.fill(table.places.len() as u16);
    // by number: it is what the column gets
    for k in 0..table.places.len() {
        let name = usize::from(table.record::<Unit>(k).name);
        column[name] = k as u16;
    }
}
