// Names numbered by first use, in a lent name table: each is looked up by the index of the names, and appended where it is not there.
#![tactic(auto)]

mod table;

ghost use Rattle.std.specs.Prelude.{◌≡◌, List, ℕ};
ghost use Rattle.names.specs.Names.{same_name};
ghost use Rattle.names.specs.Index.{Sought};
ghost use Rattle.name_table.specs.NameTable.{name_in};
ghost use Rattle.number_names.specs.Numbers.{enter_name, InTable};
ghost use Rattle.number_names.specs.Tables.{listed, room_of, SameTable, HeldBy, EnteredBy};

use fields::Field;
use name_table::{end_of, start_of};
use names::{bucket_of, enter, find_by, put_bytes, same};
use obj::{Refusal, refuse};
pub use table::{KnownNames, NumberedNames};

// How many names stand in the table, and how many bytes they have.
#[derive(Clone, Copy)]
pub struct Count {
    pub names: usize,
    pub used: usize,
}

// ---- a name of the table

// Name k is x.
fn is_name(ends: &[u8], bytes: &[u8], k: usize, x: &[u8]) -> bool
    requires { InTable ends.now bytes.now k }
    ensures { result ≡ same_name x.now (name_in ends.now bytes.now k) }
{
    let start = start_of(ends, k);
    let end = end_of(ends, k);
    same(x, &bytes[start..end])
}

// The number of the name x, if it is one of the names.
pub fn find_name(names: &KnownNames, x: &[u8]) -> Option<usize>
    ensures { Sought (listed names.now) x.now result }
{
    find_by(&names.index, x, &|k| is_name(names.ends, names.bytes, k, x))
}

// ---- a name more

// Enters the name x: it is there, or it is the next, or it has no place and is refused by 2 at its number.
pub fn enter_name(x: &[u8], names: &mut NumberedNames) -> Result<(), Refusal>
    ensures { SameTable names.old names.new
        × ((held : List (List ℕ)) (ends₀ bytes₀ : List ℕ)
        → HeldBy held ends₀ bytes₀ names.old
        → EnteredBy (enter_name (room_of names.old) held x.now) ends₀ bytes₀ names.new result) }
{
    if find_name(&names.known(), x).is_some() {
        return Ok(());
    }
    let n = names.count.names;
    let used = names.count.used;
    let end = used + x.len();
    if (names.most.names <= n) | (names.most.bytes < end) {
        return refuse(2, 0, n as u32);
    }
    put_bytes(names.bytes, used, x);
    (end as u16).put(names.ends, 2 * n);
    enter(names.heads, names.chain, bucket_of(x), n);
    names.count = Count {
        names: n + 1,
        used: end,
    };
    Ok(())
}
