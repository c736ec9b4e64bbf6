// The tables of a stage as its entry is lent them.
#![tactic(auto)]

// The bytes of each table; a stage that has no such table leaves it empty. A lifetime for each, as they have different owners.
#[derive(Clone, Copy)]
pub struct StageTables<'e, 'n, 's, 'p, 'i, 'y, 'r, 'l, 't, 'u> {
    pub name_ends: &'e [u8],
    pub name_bytes: &'n [u8],
    pub sections: &'s [u8],
    pub section_places: &'p [u8],
    pub image: &'i [u8],
    pub symbols: &'y [u8],
    pub relocs: &'r [u8],
    pub partials: &'l [u8],
    pub splits: &'t [u8],
    pub units: &'u [u8],
}

// No table at all: an entry names those that it is lent, and takes the others from here.
pub const NO_TABLES: StageTables<
    'static,
    'static,
    'static,
    'static,
    'static,
    'static,
    'static,
    'static,
    'static,
    'static,
> = StageTables {
    name_ends: &[],
    name_bytes: &[],
    sections: &[],
    section_places: &[],
    image: &[],
    symbols: &[],
    relocs: &[],
    partials: &[],
    splits: &[],
    units: &[],
};
