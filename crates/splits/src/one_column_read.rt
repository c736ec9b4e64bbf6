// The columns of a table of which one is written, to read. A trait would have the same three bodies, so there are three.
ghost use Rattle.std.specs.Prelude.{◌≡◌};
ghost use Rattle.splits.specs.Table.{columns_of, ends_columns, units_columns, rest_columns};

use crate::{SplitColumns, SplitEnds, SplitRest, SplitUnits};

impl SplitEnds<'_, '_, '_, '_> {
    // The table's columns to read.
    pub fn columns(&self) -> SplitColumns<'_, '_, '_, '_>
        ensures columns { columns_of result ≡ ends_columns self.now }
        ensures count { result.count ≡ self.now.count }
    {
        SplitColumns {
            starts: self.starts,
            ends: &*self.ends,
            units: self.units,
            rest: self.rest,
            count: self.count,
        }
    }
}

impl SplitUnits<'_, '_, '_, '_> {
    // The table's columns to read.
    pub fn columns(&self) -> SplitColumns<'_, '_, '_, '_>
        ensures columns { columns_of result ≡ units_columns self.now }
        ensures count { result.count ≡ self.now.count }
    {
        SplitColumns {
            starts: self.starts,
            ends: self.ends,
            units: &*self.units,
            rest: self.rest,
            count: self.count,
        }
    }
}

impl SplitRest<'_, '_, '_, '_> {
    // The table's columns to read.
    pub fn columns(&self) -> SplitColumns<'_, '_, '_, '_>
        ensures columns { columns_of result ≡ rest_columns self.now }
        ensures count { result.count ≡ self.now.count }
    {
        SplitColumns {
            starts: self.starts,
            ends: self.ends,
            units: self.units,
            rest: &*self.rest,
            count: self.count,
        }
    }
}
