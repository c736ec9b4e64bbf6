// The sections of a file that are taken over.
ghost use Rattle.std.specs.Prelude.{◌≤◌, length};

// The number in the file of each: "64 sections".
#[derive(Clone, Copy)]
pub struct SectionNumbers<'n> {
    pub numbers: &'n [usize],
    pub ghost few: { length numbers.now ≤ 64 },
}
