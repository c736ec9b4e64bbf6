// The relocations of a section, by number: a column made once for a section, of which those in a range are a part, found by a binary search.
#![tactic(auto)]

ghost use Rattle.std.specs.Prelude.{◌≡◌, ◌<◌, length, get_or};
ghost use Rattle.lists.specs.Rows.{keep_if};
ghost use Rattle.lists.specs.Sort.{between};
ghost use Rattle.obj.specs.Records.{Held};
ghost use Rattle.relocs.specs.Relocs.{reloc_of, relocs_of, address_of, Whole, Room, Readable, Ordered};
ghost use Rattle.symbol_order.specs.Order.{Leads};

use fields::number;
use obj::{Reloc, Table};
use symbol_order::numbered;

// The address of the relocation whose number stands at place i.
pub fn address_in(table: &Table, part: &[u16], i: usize) -> u32
    requires { (i < length part.now) × Readable table.now.bytes.now table.now.places.now part.now }
    ensures { result ≡ address_of table.now.bytes.now table.now.places.now (get_or part.now i 0) }
{
    table.record::<Reloc>(number(part, i)).address
}

// The section's relocations, in the order of the table, and how many they are: they are `part[..r]`. A count, since the column is lent anew for the next section.
pub fn for_section(table: &Table, section: u16, part: &mut [u16]) -> usize
    requires { Room table.now.places.now part.old × Whole table.now.bytes.now table.now.places.now }
    ensures { Leads part.new (relocs_of (reloc_of table.now.bytes.now table.now.places.now) (length table.now.places.now) section) table.now.places.now result }
{
    numbered(
        table.places.len(),
        part,
        &|i| table.record::<Reloc>(i).section == section,
    )
}

// Those of the section's relocations that lie in start..end.
pub fn range<'a>(table: &Table, part: &'a [u16], start: u32, end: u32) -> &'a [u16]
    requires { Ordered table.now.bytes.now table.now.places.now part.now }
    ensures { result.now ≡ keep_if (between (address_of table.now.bytes.now table.now.places.now) start end) part.now }
{
    symbol_order::part(
        part,
        u64::from(start),
        u64::from(end),
        &|i| u64::from(address_in(table, part, i)),
    )
}
