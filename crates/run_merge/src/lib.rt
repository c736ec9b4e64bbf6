// The first stages of the run: "It merges the partial splits in file order (`add_split`), marks common (`update_common_splits` with no start)". Heads, names and
// partial splits are the file's own bytes; the table stands in lent columns.
#![tactic(auto)]

ghost use Rattle.std.specs.Prelude.{◌≡◌, []};
ghost use Rattle.tables.specs.Tables.{AllHeld};
ghost use Rattle.tables.specs.Records.{sections_in, partials_in};
ghost use Rattle.splits.specs.Table.{rows_in, SameLent};
ghost use Rattle.splits.specs.Bytes.{Partials};
ghost use Rattle.merge.specs.Merge.{given, merge_all};
ghost use Rattle.merge.specs.Answers.{merged};
ghost use Rattle.common.specs.Sections.{bss_in, Sections};
ghost use Rattle.run_merge.specs.Merging.{marked_in};

use common::update_common_splits;
use loaded::Loaded;
use merge::add_splits;
use obj::{Refusal, Table};
use splits::{SplitRest, SplitTable};

// The partial splits merged into a table that has none, and common marked.
pub fn merge_partials(loaded: &Loaded, table: &mut SplitTable) -> Result<(), Refusal>
    requires { Sections loaded.now.file.now loaded.now.names.now loaded.now.lengths.now loaded.now.file.now loaded.now.sections.now
        × AllHeld 15 loaded.now.file.now loaded.now.sections.now
        × Partials loaded.now.file.now loaded.now.partials.now }
    ensures rows { merged result (rows_in table.new)
        ≡ marked_in (bss_in loaded.now.file.now loaded.now.names.now loaded.now.lengths.now loaded.now.file.now loaded.now.sections.now)
        (merge_all (given (sections_in loaded.now.file.now loaded.now.sections.now) table.old.room) [] (partials_in loaded.now.file.now loaded.now.partials.now)) }
    ensures lent { SameLent table.old table.new }
{
    let heads = loaded.heads();
    table.count = 0;
    add_splits(
        table,
        &heads,
        &Table {
            bytes: loaded.file,
            places: loaded.partials,
        },
    )?;
    let starts = &mut *table.starts;
    let ends = &mut *table.ends;
    let units = &mut *table.units;
    let rest = &mut *table.rest;
    let mut marked = SplitRest {
        starts: &*starts,
        ends: &*ends,
        units: &*units,
        rest: &mut *rest,
        count: table.count,
    };
    // without a start nothing is refused
    let _ = update_common_splits(&loaded.names(), &heads, &mut marked, None);
    Ok(())
}
