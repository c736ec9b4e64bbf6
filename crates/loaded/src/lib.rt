// The tables of a loaded file: where the sections' bytes are, and the tables that a stage takes of them. The laws say that what the loader found is what each stage asks.
#![tactic(auto)]

ghost use Rattle.std.specs.Prelude.{◌≡◌, ℕ, ◌+◌, ◌≤◌, ◌<◌, length, get_or, take};
ghost use Rattle.loaded.specs.Tables.{byte_places, names_in, heads_in, image_in, obj_in};

use names::Names;
use obj::Table;
use sections::Obj;

// The tables of a loaded file: the places of their records in it, the lengths of its names, the places of the sections' bytes, and the symbols' order by
// address.
#[derive(Clone, Copy)]
pub struct Loaded<'a> {
    pub file: &'a [u8],
    pub names: &'a [u32],
    pub lengths: &'a [u8],
    pub sections: &'a [u32],
    pub images: &'a [u32],
    pub symbols: &'a [u32],
    pub order: &'a [u16],
    pub relocs: &'a [u32],
    pub partials: &'a [u32],
    pub units: &'a [u32],
}

// The file is held once, and what a stage takes of it is made where it is asked: as fields, `Names`, `Table` and `Obj` would each hold the bytes, and that these are the same bytes
// would be one more fact of each function that takes a `Loaded`.
impl Loaded<'_> {
    pub fn names(&self) -> Names<'_, '_, '_>
        ensures { result ≡ names_in self.now }
    {
        Names {
            bytes: self.file,
            places: self.names,
            lengths: self.lengths,
        }
    }

    // The heads of the sections.
    pub fn heads(&self) -> Table<'_, '_>
        ensures { result ≡ heads_in self.now }
    {
        Table {
            bytes: self.file,
            places: self.sections,
        }
    }

    // The bytes of the sections.
    pub fn image(&self) -> Table<'_, '_>
        ensures { result ≡ image_in self.now }
    {
        Table {
            bytes: self.file,
            places: self.images,
        }
    }

    // The guest as the stages ask it.
    pub fn obj(&self) -> Obj<'_, '_, '_, '_, '_, '_, '_, '_>
        ensures { result ≡ obj_in self.now }
    {
        Obj {
            symbols: Table {
                bytes: self.file,
                places: self.symbols,
            },
            order: self.order,
            names: self.names(),
            heads: self.heads(),
        }
    }
}

// The places of the sections' bytes, at the front of a column: each behind its 15 bytes of head.
pub fn image_places(sections: &[u32], column: &mut [u32])
    requires { (length sections.now ≤ length column.old) × ((k : ℕ) → k < length sections.now → get_or sections.now k 0 + 15 ≤ 65536) }
    ensures { take (length sections.now) column.new ≡ byte_places sections.now }
{
    for (i, section) in sections.iter().enumerate() {
        column[i] = *section + 15;
    }
}
