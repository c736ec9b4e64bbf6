// The columns that a file is loaded into. A struct with a ghost field imports all that its file does, so it stands in a file of its own.
ghost use Rattle.run_load.specs.Room.{Long};

// What is loaded of a file: the places of its records, the lengths of its names and their index, the places of the sections' bytes, and the symbols' order by address.
// The six arrays behind them stand in the two functions that lend all of them, entry_split_file::with_columns and print_run::print_run (entry_check_file::answer_of has the four that
// the loader asks, and lends them one by one). There is no heap: a function that made both the arrays and this could not hand it out, and a method that gives a struct of `&mut` slices out of an
// owner of the arrays is not covered.
#[derive(Drop)]
pub struct FileColumns<'p, 'l, 'h, 'c, 'i, 'o> {
    pub places: &'p mut [u32],
    pub lengths: &'l mut [u8],
    pub heads: &'h mut [u16],
    pub chain: &'c mut [u16],
    pub images: &'i mut [u32],
    pub order: &'o mut [u16],
    pub ghost long: { Long places.now lengths.now heads.now chain.now images.now order.now },
}
