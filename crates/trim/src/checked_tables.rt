// The tables that a trim reads. A struct with a ghost field imports all that its file does, so it stands in a file of its own.
ghost use Rattle.sections.specs.Sections.{KeptIn};
ghost use Rattle.trim.specs.Lent.{AsksIn};

use obj::Table;
use sections::Obj;

// Symbols, names, heads and section bytes; all of them passed their checks.
#[derive(Clone, Copy)]
pub struct CheckedTables<'s, 't, 'o, 'b, 'p, 'l, 'h, 'i, 'm, 'q> {
    pub obj: Obj<'s, 't, 'o, 'b, 'p, 'l, 'h, 'i>,
    pub image: Table<'m, 'q>,
    pub ghost asks: { AsksIn obj },
    pub ghost kept: { KeptIn obj image },
}
