// The filling of gaps (`create_gap_splits` of util/split.rs): all gaps are found in the split table as it is, and then they enter it.
#![tactic(auto)]

ghost use Rattle.std.specs.Prelude.{◌≡◌, ◌+◌, ◌*◌, ◌≤◌, length};
ghost use Rattle.names.specs.Index.{Indexed};
ghost use Rattle.tables.specs.Records.{sections_in};
ghost use Rattle.symbol_order.specs.Order.{symbol_of};
ghost use Rattle.symbols.specs.Sound.{Sound};
ghost use Rattle.sections.specs.Image.{image_in, TablesIn};
ghost use Rattle.sections.specs.Sections.{sections_of, Kept};
ghost use Rattle.splits.specs.Table.{rows_in, SameLent as SameTable};
ghost use Rattle.merge.specs.Merge.{given};
ghost use Rattle.gaps.specs.Found.{Clean};
ghost use Rattle.gap_columns.specs.Table.{SameLent as SameGaps};
ghost use Rattle.gap_splits.specs.Answers.{added_in, SameLent as SameNames, ceilings_in, meant};
ghost use Rattle.names.specs.Listed.{names_in};
ghost use Rattle.create_gap_splits.specs.Create.{gaps_filled, Short};

use gap_columns::GapTable;
use gap_splits::{AddedNames, enter_gaps};
use gaps::find_gaps;
use names::NameIndex;
use obj::{Refusal, Table};
use sections::Obj;
use splits::SplitTable;

// `found` keeps the gaps between the two halves; `marks` are all 0 before and after.
pub fn create_gap_splits(
    obj: &Obj,
    index: &NameIndex,
    image: &Table,
    table: &mut SplitTable,
    added: &mut AddedNames,
    marks: &mut [u8],
    found: &mut GapTable,
) -> Result<(), Refusal>
    requires { TablesIn obj.now
        × Kept obj.now.heads.bytes.now obj.now.heads.places.now image.now.bytes.now image.now.places.now obj.now.names.places.now
        × Sound (symbol_of obj.now.symbols.bytes.now obj.now.symbols.places.now) (length obj.now.symbols.places.now)
        × Clean marks.old × (length obj.now.names.places.now ≤ length marks.old)
        × (length obj.now.heads.places.now + 2 * table.old.count + length obj.now.symbols.places.now ≤ found.old.room)
        × Indexed (names_in obj.now.names) index.now.heads.now index.now.chain.now
        × Short obj.now.heads.bytes.now obj.now.heads.places.now obj.now.names.bytes.now obj.now.names.places.now obj.now.names.lengths.now }
    ensures tables { meant (names_in obj.now.names) (added_in added.new) (rows_in table.new) result
        ≡ gaps_filled
        (image_in obj.now)
        (sections_of obj.now.heads.bytes.now obj.now.heads.places.now image.now.bytes.now image.now.places.now)
        (given (sections_in obj.now.heads.bytes.now obj.now.heads.places.now) table.old.room)
        (ceilings_in obj.now.names added.old)
        (record { names = names_in obj.now.names; rows = rows_in table.old }) }
    ensures lent { SameTable table.old table.new }
    ensures added { SameNames added.old added.new }
    ensures found { SameGaps found.old found.new }
{
    find_gaps(obj, image, &table.columns(), marks, found)?;
    enter_gaps(
        table,
        &obj.heads,
        &obj.names,
        index,
        added,
        &found.columns(),
    )
}
