// The sections of a stage with the places of their bytes, and its symbols with their order, in arrays of an entry's own: there is no heap, and 64 sections and 4,096
// symbols are the ceilings of all stages.
#![tactic(auto)]

mod section_arrays;
mod symbol_arrays;

pub use section_arrays::{SectionArrays, SectionTables};
pub use symbol_arrays::SymbolArrays;
