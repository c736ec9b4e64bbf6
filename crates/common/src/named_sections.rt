// The sections with their names. A struct with a ghost field imports all that its file does, so it stands in a file of its own.
ghost use Rattle.common.specs.Sections.{SectionsIn};

use names::Names;
use obj::Table;

// The sections' heads, and the names that theirs are among.
#[derive(Clone, Copy)]
pub struct NamedSections<'b, 'p, 'l, 'h, 'i> {
    pub names: Names<'b, 'p, 'l>,
    pub heads: Table<'h, 'i>,
    pub ghost named: { SectionsIn names heads },
}
